//! Ports, texts, commands and the top call. A call with parameters of its own, or whose result
//! borrows, stands in a function that does nothing else.

ghost use Rattle.std.specs.Prelude.{◌≡◌, ◌≤◌, ◌<◌, false, length};
ghost use Rattle.command_line.specs.Command.{has_team};
ghost use Rattle.command_line.specs.Words.{command_of};
ghost use Rattle.pool_core.specs.Sound.{IsPoolOf};
ghost use Rattle.port_io.specs.Output.{IsOpen};

use bsss_cli::{
    Argv, Command, GapRule, Settings, Status, gap_of, parse_words, run, run_alone, wants_team,
};
use cert_checker::{Accepted, CheckError, Tally, check};
use certificate::{AnswerError, AnswerReader, Head, Item, write_answer};
use discard_log::{Mark, NodeList};
use instance_text::{InstanceError, read_instance, write_instance};
use near_set::write_near;
use pair_check::{CheckGate, check_with};
use pool_core::{Job, Pool};
use port_io::{
    Failed, MemSink, MemSource, Out, Sink, Source, StdSink, StdSource, SureSink, SureSource,
    WriteFault,
};
use resume_job::{LoadError, ReopenError, load, reopen};
use shared_pool::Closed;
use site_model::{Instance, Site};
use site_workers::{Gate, team};
use std::alloc::Global;
use std::io::{Read, Write};
use std::sync::Wait;
use std::thread::Threads;

/// `team`.
fn team_is<R: Threads + Wait + Sync, G: Gate + Sync>(
    rt: &R,
    alloc: Global,
    job: &Job,
    pool: Pool,
    workers: u32,
    gate: &G,
) -> Result<Closed, site_workers::NoMemory>
    requires pool { IsPoolOf job.now pool }
    requires least { 1 ≤ workers }
    requires most { workers ≤ 64 }
{
    team(rt, alloc, job, pool, workers, gate)
}

/// `check`.
fn check_is<S: Source>(alloc: Global, source: &mut S) -> Result<Accepted, CheckError> {
    check(alloc, source)
}

/// `check_with`.
fn check_with_is<R: Threads + Sync, S: Source, G: CheckGate + Sync>(
    rt: &R,
    alloc: Global,
    source: &mut S,
    workers: u32,
    gate: &G,
) -> Result<Accepted, CheckError>
    requires least { 1 ≤ workers }
    requires most { workers ≤ 64 }
{
    check_with(rt, alloc, source, workers, gate)
}

/// `load`.
fn load_is<S: Source>(alloc: Global, source: &mut S) -> Result<(Head, NodeList), LoadError> {
    load(alloc, source)
}

/// `run`.
fn run_is<R: Threads + Wait + Sync, S: Source, K: Sink, G: Gate + Sync>(
    rt: &R,
    alloc: Global,
    words: &Argv,
    source: &mut S,
    sink: &mut K,
    gate: &G,
) -> Status {
    run(rt, alloc, words, source, sink, gate)
}

/// `run_alone`.
fn run_alone_is<S: Source, K: Sink>(
    alloc: Global,
    words: &Argv,
    source: &mut S,
    sink: &mut K,
) -> Status
    requires { has_team (command_of words.now) ≡ false }
{
    run_alone(alloc, words, source, sink)
}

/// The ports of std.
fn ports_are<I: Read, O: Write>(input: I, output: O) -> (StdSource<I>, StdSink<O>) {
    (StdSource::new(input), StdSink::new(output))
}

/// `Source::read`.
fn read_is<S: Source>(source: &mut S, room: &mut [u8]) -> Result<usize, Failed>
    requires { 0 < length room.old }
{
    source.read(room)
}

/// `Sink::write`.
fn write_is<K: Sink>(sink: &mut K, bytes: &[u8]) -> Result<usize, Failed>
    requires { 0 < length bytes.now }
{
    sink.write(bytes)
}

/// `Out::put`.
fn put_is<K: Sink>(out: &mut Out<K>, bytes: &[u8]) -> Result<(), WriteFault>
    requires { IsOpen out.old }
{
    out.put(bytes)
}

/// `Out::put_number`.
fn put_number_is<K: Sink>(out: &mut Out<K>, number: i64) -> Result<(), WriteFault>
    requires { IsOpen out.old }
{
    out.put_number(number)
}

/// `Out::finish`.
fn finish_is<K: Sink>(out: Out<K>) -> Result<(), WriteFault>
    requires { IsOpen out }
{
    out.finish()
}

/// `Out::failed`.
fn failed_is<K: Sink>(out: &Out<K>) -> bool {
    out.failed()
}

/// `write_instance`.
fn write_instance_is<K: Sink>(instance: &Instance, out: &mut Out<K>) -> Result<(), WriteFault>
    requires { IsOpen out.old }
{
    write_instance(instance, out)
}

/// `write_answer`.
fn write_answer_is<K: Sink>(
    head: &Head,
    nodes: &NodeList,
    out: &mut Out<K>,
) -> Result<(), WriteFault>
    requires { IsOpen out.old }
{
    write_answer(head, nodes, out)
}

/// `write_near`.
fn write_near_is<K: Sink>(
    instance: &Instance,
    cost: i64,
    depth: u8,
    out: &mut Out<K>,
) -> Result<(), WriteFault>
    requires is_open { IsOpen out.old }
    requires depth { depth ≤ 16 }
{
    write_near(instance, cost, depth, out)
}

/// `AnswerReader::begin`.
fn begin_is<'a, S: Source>(
    alloc: Global,
    source: &'a mut S,
) -> Result<(AnswerReader<'a, S>, Head), AnswerError> {
    AnswerReader::begin(alloc, source)
}

/// `AnswerReader::next`.
fn next_is<S: Source>(reader: &mut AnswerReader<S>) -> Result<Item, AnswerError> {
    reader.next()
}

/// `AnswerReader::finish`.
fn end_is<S: Source>(reader: AnswerReader<S>) -> Result<(), AnswerError> {
    reader.finish()
}

/// `AnswerReader::line`.
fn line_is<S: Source>(reader: &AnswerReader<S>) -> u64 {
    reader.line()
}

/// `CheckGate::pass`.
fn pass_is<G: CheckGate>(gate: &G, batch: u32) {
    gate.pass(batch)
}

/// `MemSink::bytes`.
fn bytes_are(sink: &MemSink) -> &[u8] {
    sink.bytes()
}

/// `SureSink::bytes`.
fn sure_bytes_are(sink: &SureSink) -> Option<&[u8]> {
    sink.bytes()
}

/// `Argv::word`.
fn word_is(words: &Argv, i: usize) -> &[u8]
    requires { i < length words.now }
{
    words.word(i)
}

#[test]
fn ports_texts_and_commands(rt: HostRuntime) {
    let _: fn(Vec<u8>, usize, Vec<u64>) -> MemSource = MemSource::new;
    let _: fn(Global, usize, usize, Vec<u64>) -> Result<MemSink, port_io::NoMemory> =
        MemSink::with_room;
    let _: fn(Vec<u8>) -> SureSource = SureSource::new;
    let _: fn(Global, usize) -> Result<SureSink, port_io::NoMemory> = SureSink::with_room;
    let _: fn(Global, &[u8]) -> Result<Instance, InstanceError> = read_instance;
    let _: fn() -> Tally = Tally::new;
    let _: fn(&mut Tally, Mark) = Tally::add;
    let _: fn(Tally, Tally) -> Tally = Tally::joined;
    let _: fn(Global, Head, &NodeList, u32, u32) -> Result<(Job, Pool), ReopenError> = reopen;
    let _: fn(Global) -> Argv = Argv::new;
    let _: fn(&mut Argv, &str) -> Result<(), bsss_cli::NoMemory> = Argv::push;
    let _: fn(&Argv) -> usize = Argv::len;
    let _: fn(&Argv) -> Option<Command> = parse_words;
    let _: fn(&Argv) -> bool = wants_team;
    let _: fn(GapRule, Option<(Site, i64)>) -> i64 = gap_of;
    let _: fn(&Status) -> u8 = Status::code;
    let settings = Settings {
        gap: GapRule::Ppm(1000),
        budget: 0,
        pool: 1,
        workers: 1,
    };
    let commands = [
        Command::Solve(settings),
        Command::Check { workers: 1 },
        Command::Make { seed: 0, points: 1 },
        Command::Trial {
            seed: 0,
            points: 1,
            settings,
        },
        Command::Resume {
            budget: 0,
            pool: None,
            workers: 1,
        },
        Command::Polish,
        Command::Near {
            slack: 0,
            depth: 0,
            limit: 1,
        },
    ];
    assert_eq!(rt; commands.len(), 7);
}
