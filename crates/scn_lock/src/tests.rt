//! A log of numbered entries under the lock: every call once, and eight threads.
ghost use Rattle.std.specs.Prelude.{◌≡◌, ◌+◌, ◌<◌, [], length, map, IfOk};
ghost use Rattle.scn_lock.specs.Steps.{opener};
ghost use Rattle.scn_lock.specs.Words.{view, number_of, passes_made, IsOf, IsFree, IsFirst, IsSamePass, AreInOrder, kept_of};

use crate::{Journaled, Pass, ScnLock, laws};
use std::alloc::{AllocError, Global};
use std::sync::Wait;
use std::test::Fail;
use std::thread::{Threads, for_each_mut};

const THREADS: u64 = 8;

const TURNS: u64 = 5000;

#[derive(Clone, Copy, PartialEq, Eq, Debug)]
struct Entry {
    by: u64,
    what: u64,
}

#[derive(Drop)]
struct Log {
    entries: Vec<Entry>,
}

impl Journaled for Log {
    type Event = Entry;

    ghost journal = { λ s. s.entries.items };

    ghost number = { λ e. e.by };

    fn entries(&self) -> u64 {
        self.entries.len() as u64
    }
}

// Adds an entry in a turn of its own, and says whether there was memory for it.
fn add<R: Wait>(rt: &R, lock: &ScnLock<Log>, pass: &mut Pass<Log>, by: u64, what: u64) -> bool
    requires { IsOf lock.now pass.old × IsFree pass.old × (by ≡ number_of pass.old) }
    ensures { IsOf lock.now pass.new × IsFree pass.new × IsSamePass pass.old pass.new }
{
    let mut turn = lock.enter(rt, pass);
    let added = turn.value().entries.push(Entry { by, what }).is_ok();
    turn.leave(lock, pass);
    added
}

// Adds an entry in each of many turns.
fn add_many<R: Wait>(rt: &R, lock: &ScnLock<Log>, pass: &mut Pass<Log>, by: u64)
    requires { IsOf lock.now pass.old × IsFree pass.old × (by ≡ number_of pass.old) }
    ensures { IsOf lock.now pass.new × IsFree pass.new × IsSamePass pass.old pass.new }
{
    for what in 0..TURNS {
        add(rt, lock, pass, by, what);
    }
}

// The passes 1 to count.
fn make(
    alloc: Global,
    lock: &ScnLock<Log>,
    first: &mut Pass<Log>,
    count: u64,
) -> Result<Vec<Pass<Log>>, AllocError>
    requires { IsOf lock.now first.old × (view first.old ≡ opener) × (count < 73) }
    ensures first { IsOf lock.now first.new × IsFirst first.new × IsFree first.new × ((view first.new).joined ≡ []) }
    ensures made { IfOk result (λ ps. (length ps.items ≡ count) × (passes_made first.new ≡ count + 1)) }
    ensures passes { IfOk result (λ ps. AreInOrder lock.now ps.items) }
{
    let mut passes = Vec::new(alloc);
    for i in 0..count {
        let _ = i;
        let pass = lock.split(first)?;
        passes.push(pass)?;
    }
    Ok(passes)
}

// Each pass takes its turns in a thread of its own.
fn run_each<R: Threads + Wait + Sync>(rt: &R, lock: &ScnLock<Log>, passes: &mut [Pass<Log>])
    requires { AreInOrder lock.now passes.old × (length passes.old < 73) }
    ensures { (length passes.new ≡ length passes.old) × AreInOrder lock.now passes.new }
{
    let threads = passes.len().max(1);
    for_each_mut(
        rt,
        passes,
        threads,
        &|i, pass: &mut Pass<Log>|
            requires { IsOf lock.now pass.now × IsFree pass.now × (number_of pass.now ≡ i + 1) × (i < 73) }
            ensures { IsOf lock.entry.now pass.exit.now × IsFree pass.exit.now × (number_of pass.exit.now ≡ number_of pass.entry.now) }
        { add_many(rt, lock, pass, i as u64 + 1) },
    );
}

// The same, of a Vec.
fn run_all<R: Threads + Wait + Sync>(rt: &R, lock: &ScnLock<Log>, passes: &mut Vec<Pass<Log>>)
    requires { AreInOrder lock.now passes.old.items × (length passes.old.items < 73) }
    ensures { (length passes.new.items ≡ length passes.old.items) × AreInOrder lock.now passes.new.items }
{
    run_each(rt, lock, passes.as_mut_slice());
}

// Pass 0 takes them all in.
fn join_all(lock: &ScnLock<Log>, first: &mut Pass<Log>, passes: Vec<Pass<Log>>)
    requires first { IsOf lock.now first.old × IsFirst first.old × IsFree first.old × ((view first.old).joined ≡ []) }
    requires passes { AreInOrder lock.now passes.items }
    ensures first { IsOf lock.now first.new × IsFirst first.new × IsFree first.new × (passes_made first.new ≡ passes_made first.old) }
    ensures joined { (view first.new).joined ≡ map kept_of passes.items }
{
    for pass in passes {
        lock.join(first, pass);
    }
}

fn empty(alloc: Global) -> Log
    ensures { result.entries.items ≡ [] }
{
    Log {
        entries: Vec::new(alloc),
    }
}

#[test]
fn each_call_with_ample_memory(rt: HostRuntime) -> Result<(), Fail> {
    let Ok((lock, mut first)) = ScnLock::new(rt.alloc(), empty(rt.alloc())) else {
        panic!(rt; "memory ran out")
    };
    laws(&lock);
    assert!(rt; add(&rt, &lock, &mut first, 0, 7));
    let mut one = lock.split(&mut first)?;
    assert!(rt; add(&rt, &lock, &mut one, 1, 8));
    assert!(rt; add(&rt, &lock, &mut first, 0, 9));
    lock.join(&mut first, one);
    let log = lock.close(first);
    let wanted = [
        Entry { by: 0, what: 7 },
        Entry { by: 1, what: 8 },
        Entry { by: 0, what: 9 },
    ];
    assert!(rt; log.entries.as_slice() == wanted.as_slice());
    Ok(())
}

#[test]
fn eight_threads_take_turns(rt: HostRuntime) -> Result<(), Fail> {
    let Ok((lock, mut first)) = ScnLock::new(rt.alloc(), empty(rt.alloc())) else {
        panic!(rt; "memory ran out")
    };
    let mut passes = make(rt.alloc(), &lock, &mut first, THREADS)?;
    run_all(&rt, &lock, &mut passes);
    join_all(&lock, &mut first, passes);
    let log = lock.close(first);
    // Each thread's entries are there in its own order, each once, and there are no others.
    assert_eq!(rt; log.entries.len() as u64, THREADS * TURNS);
    let mut next = [0; THREADS as usize];
    for entry in &log.entries {
        let Some(wanted) = next.get_mut((entry.by as usize).wrapping_sub(1)) else {
            panic!(rt; "an entry of no thread")
        };
        assert_eq!(rt; entry.what, *wanted);
        *wanted = entry.what.wrapping_add(1);
    }
    assert_eq!(rt; next, [TURNS; THREADS as usize]);
    Ok(())
}
