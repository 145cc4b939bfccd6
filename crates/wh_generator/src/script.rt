ghost use Rattle.def_output.specs.Generator.{generated, ten_times};
ghost use Rattle.std.specs.Prelude.{◌≡◌, ◌++◌, IfOk, OnOk, codes};
ghost use Rattle.std.specs.String.{string_bytes};
ghost use Rattle.wh_generator.specs.Parts.{counting, inserting, loaded, objects, refreshing, repeated, scripted, setup_of, told, turns};

use crate::again::Again;
use crate::loads::{day_rows, push_load, sale_rows};
use crate::series::lists_of;
use crate::texts::{Inserts, push_text};
use std::alloc::{AllocError, Global};
use wh_base::seq::Seq;
use wh_base::shared::Shared;
use wh_base::statements::{Command, Script, Section};
use wh_base::txt::Txt;

/// How often each of the sessions 1 to 3 takes its turn.
const TURNS: u32 = 10;

/// How many days there are.
const DAYS: u32 = 360;

/// The sum and the number of sales per month.
const VIEW_QUERY: &str =
    "SELECT T.MON, SUM(S.AMT), COUNT(*) FROM SALES S JOIN TIMES T ON S.DAY = T.DAY GROUP BY T.MON";

// The items ten times over. An error says that memory ran out.
fn ten_times<T: Again + Drop>(alloc: Global, turn: Seq<T>) -> Result<Seq<T>, AllocError>
    ensures { IfOk result (λ all. all ≡ ten_times turn) }
{
    let all = lists_of(alloc, TURNS, &turn)?;
    Ok(all)
}

// CREATE TABLE and a LOAD of the table at the end of the commands.
fn push_table(
    alloc: Global,
    text: &str,
    table: &[u8],
    rows: Seq<Seq<Txt>>,
    commands: &mut Seq<Shared<Command>>,
) -> Result<(), AllocError>
    ensures { OnOk result (commands.new
        ≡ commands.old ++ (told text.now ++ loaded table.now rows)) }
{
    push_text(alloc, text, commands)?;
    push_load(alloc, table, rows, commands)?;
    Ok(())
}

// The commands that make both tables by their texts, load their rows, and make the view.
fn objects(
    alloc: Global,
    times_text: &str,
    times: Seq<Seq<Txt>>,
    sales_text: &str,
    sales: Seq<Seq<Txt>>,
    view_text: &str,
) -> Result<Seq<Shared<Command>>, AllocError>
    ensures { IfOk result (λ commands. commands
        ≡ objects times_text.now times sales_text.now sales view_text.now) }
{
    let mut commands = Seq::new(alloc);
    push_table(alloc, times_text, b"TIMES", times, &mut commands)?;
    push_table(alloc, sales_text, b"SALES", sales, &mut commands)?;
    push_text(alloc, view_text, &mut commands)?;
    Ok(commands)
}

// The text that makes the view of a query, with query rewrite.
fn view_text(alloc: Global, query: &str) -> Result<String, AllocError>
    ensures { IfOk result (λ text. string_bytes text
        ≡ codes "CREATE MATERIALIZED VIEW V ENABLE QUERY REWRITE AS " ++ query.now) }
{
    format!(in alloc; "CREATE MATERIALIZED VIEW V ENABLE QUERY REWRITE AS {query}")
}

// The setup: both tables with their rows, and the view.
#[tactic(auto, using(crate::proofs::Whole::setups), unfolding(crate::specs::Parts::setup_of))]
fn setup(alloc: Global, sales: u32) -> Result<Section, AllocError>
    ensures { IfOk result (λ s. s ≡ setup_of sales) }
{
    let view = view_text(alloc, VIEW_QUERY)?;
    let commands = objects(
        alloc,
        "CREATE TABLE TIMES (DAY NUMBER PRIMARY KEY, MON NUMBER NOT NULL)",
        day_rows(alloc, DAYS)?,
        "CREATE TABLE SALES (DAY NUMBER NOT NULL REFERENCES TIMES (DAY), PROD NUMBER NOT NULL, AMT NUMBER)",
        sale_rows(alloc, sales)?,
        view.as_str(),
    )?;
    Ok(Section {
        session: 0,
        commands,
    })
}

// Session 1 inserts a sale in each turn.
#[tactic(auto, unfolding(crate::specs::Parts::inserting))]
fn inserts(alloc: Global) -> Result<Section, AllocError>
    ensures { IfOk result (λ s. s ≡ inserting) }
{
    Ok(Section {
        session: 1,
        commands: lists_of(alloc, TURNS, &Inserts)?,
    })
}

// A session with these commands in each turn.
#[tactic(auto, unfolding(crate::specs::Parts::repeated))]
fn repeated(alloc: Global, session: u32, turn: Seq<Shared<Command>>) -> Result<Section, AllocError>
    ensures { IfOk result (λ s. s ≡ repeated session turn) }
{
    Ok(Section {
        session,
        commands: ten_times(alloc, turn)?,
    })
}

// Session 2 refreshes the view in each turn, and asks its query.
#[tactic(auto, unfolding(crate::specs::Parts::refreshing))]
fn refreshes(alloc: Global) -> Result<Section, AllocError>
    ensures { IfOk result (λ s. s ≡ refreshing) }
{
    let mut turn = Seq::new(alloc);
    push_text(alloc, "EXECUTE DBMS_MVIEW.REFRESH('V', 'C')", &mut turn)?;
    push_text(alloc, VIEW_QUERY, &mut turn)?;
    let section = repeated(alloc, 2, turn)?;
    Ok(section)
}

// Session 3 counts the sales by product in each turn.
#[tactic(auto, unfolding(crate::specs::Parts::counting))]
fn counts(alloc: Global) -> Result<Section, AllocError>
    ensures { IfOk result (λ s. s ≡ counting) }
{
    let mut turn = Seq::new(alloc);
    push_text(
        alloc,
        "SELECT S.PROD, COUNT(*) FROM SALES S GROUP BY S.PROD",
        &mut turn,
    )?;
    let section = repeated(alloc, 3, turn)?;
    Ok(section)
}

// A turn of each session: an insert, a refresh with its two parts and a query, and a count.
#[tactic(auto, unfolding(crate::specs::Parts::turns))]
fn order(alloc: Global) -> Result<Seq<u32>, AllocError>
    ensures { IfOk result (λ all. all ≡ turns) }
{
    let turn = Seq::from_vec(Vec::from_slice(alloc, &[1, 2, 2, 2, 3])?)?;
    let all = ten_times(alloc, turn)?;
    Ok(all)
}

// A script of four sections and no workers.
fn scripted(
    alloc: Global,
    setup: Section,
    first: Section,
    second: Section,
    third: Section,
    order: Seq<u32>,
) -> Result<Script, AllocError>
    ensures { IfOk result (λ script. script ≡ scripted setup first second third order) }
{
    let mut sections = Seq::new(alloc);
    sections.push(setup)?;
    sections.push(first)?;
    sections.push(second)?;
    sections.push(third)?;
    Ok(Script {
        sections,
        order,
        workers: 0,
    })
}

// The script, by the names of its parts.
fn put_together(alloc: Global, sales: u32) -> Result<Script, AllocError>
    ensures { IfOk result (λ script. script
        ≡ scripted (setup_of sales) inserting refreshing counting turns) }
{
    let setup = setup(alloc, sales)?;
    let first = inserts(alloc)?;
    let second = refreshes(alloc)?;
    let third = counts(alloc)?;
    let order = order(alloc)?;
    let script = scripted(alloc, setup, first, second, third, order)?;
    Ok(script)
}

/// The script of `gen N` with so many sales, which is this project's own: the setup makes 360 days, the sales, and a view with
/// query rewrite over both; session 1 inserts ten sales, session 2 refreshes the view and asks its query ten times, session 3
/// counts the sales by product ten times, and they take turns. The commands that sessions 2 and 3 repeat are each parsed once
/// and shared.
///
/// It is linear in the number of sales. An error says that memory ran out.
pub fn generated(alloc: Global, sales: u32) -> Result<Script, AllocError>
    ensures { IfOk result (λ script. script ≡ generated sales) }
{
    let script = put_together(alloc, sales)?;
    Ok(script)
}
