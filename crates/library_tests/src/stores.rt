//! Each call of the stores, with failures before and after its work.

ghost use Rattle.std.specs.Prelude.{◌<◌};

use crate::calls::{
    folder_of, lists, name, names_of, put_journal, read, read_journal, remove, rename, replace,
    write,
};
use par2_folder::{FolderStore, FuseStore, MemoryStore, ReadFault, StoreFault};
use std::process::Abort;

// Whether call `k` of eight succeeds, on a store with the file `a` and the journal `j` and after the calls before.
fn answers<S: FolderStore>(rt: &(impl Abort + AllocGlobal), store: &mut S, k: usize) -> bool {
    match k {
        0 => names_of(rt.alloc(), store).is_ok(),
        1 => read(rt.alloc(), store, &name(rt, "a")).is_ok(),
        2 => read_journal(rt.alloc(), store).is_ok(),
        3 => write(store, &name(rt, "b"), b"2").is_ok(),
        4 => replace(store, &name(rt, "a"), b"3").is_ok(),
        5 => rename(store, &name(rt, "a"), &name(rt, "c")).is_ok(),
        6 => remove(store, &name(rt, "b")).is_ok(),
        _ => put_journal(store, b"new").is_ok(),
    }
}

// Makes the eight calls. Whether exactly the first `k` succeed.
fn answers_first<S: FolderStore>(rt: &(impl Abort + AllocGlobal), store: &mut S, k: usize) -> bool {
    let mut as_reported = true;
    for call in 0..8usize {
        as_reported &= answers(rt, store, call) == (call < k);
    }
    as_reported
}

// The store with the file `a` and the journal `j`.
fn started(rt: &(impl Abort + AllocGlobal)) -> MemoryStore {
    let mut store = MemoryStore::new(rt.alloc());
    assert!(rt; takes(rt, &mut store, "a", b"1") && put_journal(&mut store, b"j").is_ok());
    store
}

// Whether the store takes the file.
fn takes<S: FolderStore>(
    rt: &(impl Abort + AllocGlobal),
    store: &mut S,
    string: &str,
    bytes: &[u8],
) -> bool {
    write(store, &name(rt, string), bytes).is_ok()
}

// Whether the store returns these bytes for the name.
fn reads(
    rt: &(impl Abort + AllocGlobal),
    store: &mut MemoryStore,
    string: &str,
    wanted: &[u8],
) -> bool {
    let bytes = read(rt.alloc(), store, &name(rt, string)).expect(rt, "bytes");
    bytes.as_slice() == wanted
}

// The fault of reading the name.
fn fault_reading(
    rt: &(impl Abort + AllocGlobal),
    store: &mut MemoryStore,
    string: &str,
) -> Option<ReadFault> {
    read(rt.alloc(), store, &name(rt, string)).err()
}

// Whether the store has this journal, or none.
fn has_journal(
    rt: &(impl Abort + AllocGlobal),
    store: &mut MemoryStore,
    wanted: Option<&[u8]>,
) -> bool {
    let journal = read_journal(rt.alloc(), store).expect(rt, "a journal");
    journal.as_deref() == wanted
}

// Whether the store has these names, and this journal.
fn holds(
    rt: &(impl Abort + AllocGlobal),
    store: &mut MemoryStore,
    names: &[&str],
    journal: Option<&[u8]>,
) -> bool {
    lists(rt, &folder_of(rt, store), names) && has_journal(rt, store, journal)
}

#[test]
fn store_without_files(rt: HostRuntime) {
    assert!(rt; holds(&rt, &mut MemoryStore::new(rt.alloc()), &[], None));
}

#[test]
fn store_in_memory(rt: HostRuntime) {
    let mut store = started(&rt);
    assert!(rt; holds(&rt, &mut store, &["a"], Some(b"j")));
    assert!(rt; answers_first(&rt, &mut store, 8));
    assert!(rt; holds(&rt, &mut store, &["c"], Some(b"new")) && reads(&rt, &mut store, "c", b"3"));
}

// Whether the store accepts a journal of this many bytes.
fn keeps_journal(rt: &(impl Abort + AllocGlobal), store: &mut MemoryStore, bytes: usize) -> bool {
    let journal = vec![in rt.alloc(); b'j'; bytes].expect(rt, "memory");
    put_journal(store, &journal).is_ok() && has_journal(rt, store, Some(&journal))
}

#[test]
fn store_without_its_last_file(rt: HostRuntime) {
    let mut store = started(&rt);
    assert!(rt; remove(&mut store, &name(&rt, "a")).is_ok());
    assert!(rt; holds(&rt, &mut store, &[], Some(b"j")) && keeps_journal(&rt, &mut store, 5000));
}

fn renamed(
    rt: &(impl Abort + AllocGlobal),
    store: &mut MemoryStore,
    from: &str,
    to: &str,
) -> Result<(), StoreFault> {
    rename(store, &name(rt, from), &name(rt, to))
}

// Renames that are impossible in a store with only the files `a` and `b`.
const IMPOSSIBLE: &[(&str, &str)] = &[("c", "d"), ("a", "b"), ("a", "a")];

#[test]
fn impossible_calls_fail(rt: HostRuntime) {
    let mut store = started(&rt);
    assert!(rt; takes(&rt, &mut store, "b", b"2"));
    assert!(rt; fault_reading(&rt, &mut store, "c") == Some(ReadFault::Store));
    for (from, to) in IMPOSSIBLE {
        assert!(rt; renamed(&rt, &mut store, from, to) == Err(StoreFault));
    }
    assert!(rt; remove(&mut store, &name(&rt, "c")) == Err(StoreFault));
    assert!(rt; write(&mut store, &name(&rt, "b"), b"3") == Err(StoreFault));
    assert!(rt; replace(&mut store, &name(&rt, "c"), b"3") == Err(StoreFault));
    assert!(rt; reads(&rt, &mut store, "b", b"2"));
    assert!(rt; holds(&rt, &mut store, &["a", "b"], Some(b"j")));
}

// The names and the journal of the store after this many calls.
const AFTER: &[(&[&str], &[u8]); 9] = &[
    (&["a"], b"j"),
    (&["a"], b"j"),
    (&["a"], b"j"),
    (&["a"], b"j"),
    (&["a", "b"], b"j"),
    (&["a", "b"], b"j"),
    (&["b", "c"], b"j"),
    (&["c"], b"j"),
    (&["c"], b"new"),
];

fn with_fuse(rt: &(impl Abort + AllocGlobal), k: u64, works: bool) -> FuseStore<MemoryStore> {
    FuseStore::new(started(rt), k, works)
}

fn without_fuse(store: FuseStore<MemoryStore>) -> MemoryStore {
    store.into_inner()
}

// Whether the calls before the `k`-th succeed on a store whose fuse blows there, and whether it then holds what it does
// after this many calls.
fn is_fused(rt: &(impl Abort + AllocGlobal), k: usize, works: bool, done: usize) -> bool
    requires { done < 9 }
{
    let mut fuse = with_fuse(rt, k as u64, works);
    let are_first = answers_first(rt, &mut fuse, k);
    let (names, journal) = AFTER[done];
    are_first && holds(rt, &mut without_fuse(fuse), names, Some(journal))
}

#[test]
fn fuse_fails_before_or_after_its_work(rt: HostRuntime) {
    for k in 0..9usize {
        assert!(rt; is_fused(&rt, k, false, k), "{k} before");
        assert!(rt; is_fused(&rt, k, true, (k + 1).min(8)), "{k} after");
    }
}
