ghost use Rattle.std.specs.Prelude.{◌≡◌, Err, Some, IfOk, IfSome, IsErrOf, OnOk, false};
ghost use Rattle.std.specs.Io.KnownBytes.{IsAtEnd};
ghost use Rattle.def_built.specs.Form.{built_script};
ghost use Rattle.wh_io.specs.Causes.{Rose};
ghost use Rattle.wh_top.specs.Endings.{IfBad};
ghost use Rattle.wh_top.specs.Running.{IsRunnable};
ghost use Rattle.wh_top.specs.Top.{IsLong, IsShort, script_built};

use law_reading::laws::{a_script_asks_what_its_texts_read_as, sections_ascend};
use std::alloc::Global;
use wh_base::statements::{BadScript, Script};
use wh_io::{ReadFault, Source, read_all};
use wh_script::fault::ScriptFault;
use wh_script::script::read_script;

/// Why there is no script.
#[derive(Clone, Copy, Debug, PartialEq, Eq)]
pub enum InputFault {
    /// Memory ran out.
    Memory,
    /// The source failed.
    Failed,
    /// The source has more than 8,388,608 bytes.
    TooLong,
    /// The bytes are no script.
    Bad(BadScript),
}

const MOST_BYTES: usize = 8388608;

/// Reads a script from a source, to the end of its bytes. The bytes are gone then, so that they aren't held beside what
/// the script makes.
pub fn read_input<S: Source>(alloc: Global, source: &mut S) -> Result<Script, InputFault>
    ensures script { IfOk result (λ script. IfSome (S.left source.old) (λ bytes. script_built bytes ≡ Some script)) }
    ensures short { IfOk result (λ script. IfSome (S.left source.old) IsShort) }
    ensures runnable { IfOk result (λ script. IsRunnable script) }
    ensures end { OnOk result (IsAtEnd (S.left source.new)) }
    ensures failed { IsErrOf result InputFault.Failed → Rose (S.faults source.old) (S.faults source.new) }
    ensures too_long { IsErrOf result InputFault.TooLong → IfSome (S.left source.old) IsLong }
    ensures bad { IfBad result (λ b. IfSome (S.left source.old) (λ bytes. built_script bytes false ≡ Err b)) }
    ensures bad_short { IfBad result (λ b. IfSome (S.left source.old) IsShort) }
{
    let bytes = match read_all(alloc, source, MOST_BYTES) {
        Ok(bytes) => bytes,
        Err(ReadFault::Memory) => return Err(InputFault::Memory),
        Err(ReadFault::Failed) => return Err(InputFault::Failed),
        Err(ReadFault::TooLong) => return Err(InputFault::TooLong),
    };
    // The laws of what is read: they do nothing, and say that the script can be run.
    a_script_asks_what_its_texts_read_as();
    sections_ascend();
    match read_script(alloc, bytes.as_slice(), false) {
        Ok(read) => Ok(read.script),
        Err(ScriptFault::Memory) => Err(InputFault::Memory),
        Err(ScriptFault::Bad(fault)) => Err(InputFault::Bad(fault)),
    }
}
