//! Merge replication between a publisher and its subscribers: the program.
#![tactic(auto)]

use merge_door::TcpDoors;
use merge_outside::{CommandOutside, RealOutside};
use merge_ports::{Reading, Sink, Source, Writing};
use merge_program::{Host, Status, perform};
use merge_resolve::{Additive, Handed, Maximum, Minimum, Priority, SubscriberWins};
use merge_serve::{Door, Doors};
use merge_types::{NoMemory, Words};
use std::alloc::Global;
use std::env;
use std::io::ErrorKind;
use std::process::ExitCode;
use std::sync::Wait;
use std::thread::Threads;

// The words behind the program's name. Where one is no text, there are none.
fn words(rt: &HostRuntime) -> Result<Vec<Words>, NoMemory> {
    let mut words = Vec::new(rt.alloc());
    match env::args(rt) {
        Ok(args) => {
            for arg in args.skip(1) {
                words.push(Words::new(arg))?;
            }
        }
        Err(fault) if fault.kind() == ErrorKind::OutOfMemory => return Err(NoMemory),
        Err(_) => {}
    }
    Ok(words)
}

// Does what the words say, with the resolvers in the order in which a publication counts them. What it
// is joined to is any, so that a proof of it looks into none.
fn program<R: Threads + Wait + Sync, I: Source, O: Sink, N: Sink, E: CommandOutside, T: Doors>(
    rt: &R,
    alloc: Global,
    words: &[Words],
    host: &mut Host<I, O, N, E>,
    doors: &mut T,
) -> Result<Status, NoMemory>
where
    E::Keep: Send,
    E::Timer: Send,
    T::Opened: Send,
    <T::Opened as Door>::Input: Send,
    <T::Opened as Door>::Output: Send,
{
    let mut resolvers: Vec<Handed> = Vec::new(alloc);
    resolvers.push(Box::new(alloc, Priority::new())?)?;
    resolvers.push(Box::new(alloc, Maximum::new())?)?;
    resolvers.push(Box::new(alloc, Minimum::new())?)?;
    resolvers.push(Box::new(alloc, Additive::new())?)?;
    resolvers.push(Box::new(alloc, SubscriberWins::new())?)?;
    Ok(perform(rt, alloc, words, host, doors, &mut resolvers))
}

fn main(rt: HostRuntime) -> ExitCode {
    let alloc = rt.alloc();
    let Ok(words) = words(&rt) else {
        return ExitCode::from(11);
    };
    let mut host = Host {
        input: Reading::new(rt.stdin()),
        output: Writing::new(rt.stdout()),
        notes: Writing::new(rt.stderr()),
        outside: RealOutside::new(rt),
    };
    let mut doors = TcpDoors::new(rt);
    let Ok(Status(status)) = program(&rt, alloc, words.as_slice(), &mut host, &mut doors) else {
        return ExitCode::from(11);
    };
    ExitCode::from(status)
}
