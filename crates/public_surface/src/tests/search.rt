//! Logs, pools, desks and workers.

use bound_heap::{Entry, Heap};
use certificate::Head;
use discard_log::{Log, Mark, Node, NodeList};
use dyadic_square::Square;
use pool_core::{Finding, Given, Job, Lease, LeaseAnswer, Pool, Stop, Verdict, judge};
use shared_pool::{Closed, Desk, RootDesk, SharedPool, TryLease, TryReturn};
use site_model::{Instance, Site};
use site_workers::{Gate, Moment, alone, finish};
use std::alloc::Global;

/// `NodeList::nodes`.
fn nodes_are(list: &NodeList) -> &[Node] {
    list.nodes()
}

/// `Desk::lease`.
fn lease_is(desk: &Desk) -> Option<&Lease> {
    desk.lease()
}

/// `Gate::pass`.
fn pass_is<G: Gate>(gate: &G, moment: Moment) {
    gate.pass(moment)
}

#[test]
fn logs_and_pools(rt: HostRuntime) {
    let square = Square {
        x: 0,
        y: 0,
        level: 17,
    };
    let node = Node {
        square,
        mark: Mark::Shut,
    };
    let entry = Entry {
        square,
        bound: 0,
        raised: false,
    };
    let verdict = Verdict {
        seen: None,
        finding: Finding::Excluded,
    };
    let _: fn(Global, usize) -> Result<Log, discard_log::NoMemory> = Log::with_room;
    let _: fn(&Log) -> usize = Log::spare;
    let _: fn(&mut Log, Node) = Log::push;
    let _: fn(Log, Square) -> NodeList = Log::in_preorder;
    let _: fn(&mut NodeList, usize, Mark) = NodeList::remark;
    let _: fn(Global, usize) -> Result<Heap, bound_heap::NoMemory> = Heap::with_room;
    let _: fn(&Heap) -> usize = Heap::len;
    let _: fn(&Heap) -> usize = Heap::spare;
    let _: fn(&mut Heap, Entry) = Heap::push;
    let _: fn(&mut Heap) -> Option<Entry> = Heap::pop;
    let _: fn(Instance, i64, u32, u32, Option<(Site, i64)>) -> Job = Job::new;
    let _: fn(Global, &Job) -> Result<Pool, pool_core::NoMemory> = Pool::begin;
    let _: fn(Global, &Job, &NodeList, u32) -> Result<Pool, pool_core::NoMemory> = Pool::begin_from;
    let _: fn(&mut Pool) -> LeaseAnswer = Pool::lease;
    let _: fn(&Lease) -> Square = Lease::square;
    let _: fn(&Lease) -> i64 = Lease::bound;
    let _: fn(&Lease) -> bool = Lease::raised;
    let _: fn(&Job, &Lease, Option<i64>) -> Verdict = judge;
    let _: fn(&mut Pool, Lease, Verdict) -> Given = Pool::give_back;
    let _: fn(&Pool) -> Option<Stop> = Pool::stop;
    let _: fn(&Pool) -> u32 = Pool::leases;
    let _: fn(&Pool) -> u32 = Pool::open_count;
    let _: fn(Pool) -> NodeList = Pool::into_nodes;
    let copied = verdict;
    assert_eq!(rt; copied, verdict);
    assert_eq!(rt; node.square, entry.square);
}

/// The fields of a job.
fn fields_of(job: Job) -> (Instance, i64, u32, u32, Square, Option<(Site, i64)>) {
    let Job {
        instance,
        gap,
        budget,
        pool,
        root,
        start,
    } = job;
    (instance, gap, budget, pool, root, start)
}

#[test]
fn desks_and_workers(rt: HostRuntime) {
    let _: fn(Global, &Job, Pool) -> Result<(SharedPool, RootDesk), shared_pool::NoMemory> =
        SharedPool::begin;
    let _: fn(&mut RootDesk, &SharedPool) -> Desk = RootDesk::seat_out;
    let _: fn(&mut RootDesk, &SharedPool, Desk) = RootDesk::take_in;
    let _: fn(&Desk) -> Option<i64> = Desk::seen;
    let _: fn(&Desk) -> Option<(Site, i64)> = Desk::best;
    let _: fn(&Desk) -> bool = Desk::fresh;
    let _: fn(&SharedPool, &mut Desk) -> TryLease = SharedPool::try_lease;
    let _: fn(&SharedPool, &mut Desk, Verdict) -> TryReturn = SharedPool::try_return;
    let _: fn(&SharedPool, &mut Desk) -> Option<i64> = SharedPool::look;
    let _: fn(&SharedPool, &mut Desk, Site, i64) -> i64 = SharedPool::offer;
    let _: fn(SharedPool, RootDesk) -> Closed = SharedPool::close;
    let _: fn(&Job, Pool) -> Closed = alone;
    let _: fn(Job, Closed) -> (Head, NodeList) = finish;
    let moments = [Moment::Leased, Moment::Judged, Moment::Idle, Moment::Busy];
    assert_eq!(rt; moments.len(), 4);
}

/// The pool and the best site of a search that has ended.
fn parts_of(closed: Closed) -> (Pool, Option<(Site, i64)>) {
    let Closed { pool, best } = closed;
    (pool, best)
}
