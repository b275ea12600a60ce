//! The rows that call a codec.
use crate::containers::{container, nodes};
use crate::cutting::{cut, cutter};
use crate::loads::load;
use crate::nodes::{node, tree, walk};
use crate::places::index;
use crate::registry::{names, replay};
use crate::sessions::session;
use crate::streams::{sink, source};
use std::alloc::Global;
use std::sync::Wait;
use std::thread::Threads;
use transcripts::{Fault, Stage, words_of};

/// Calls of parts, each of which begins with nothing.
#[derive(Drop)]
pub(crate) struct Codecs;

impl Stage for Codecs {
    fn prepare(&mut self, _alloc: Global, _line: &str) -> Result<(), Fault> {
        Err(Fault::Line)
    }

    fn answer<R: Threads + Wait + Sync>(
        &mut self,
        rt: &HostRuntime,
        _threads: &R,
        row: &str,
    ) -> Result<String, Fault> {
        codec_answer(rt.alloc(), row)
    }
}

// What a codec answers to the words after its name.
fn codec_answer(alloc: Global, row: &str) -> Result<String, Fault> {
    let (codec, rest) = row.split_once(' ').unwrap_or((row, ""));
    match codec {
        "cutter" => cutter(alloc, rest),
        "container" => container(alloc, rest),
        "nodes" => nodes(alloc, rest),
        "names" => names(alloc, rest),
        "replay" => replay(alloc, rest),
        "index" => index(alloc, rest),
        "session" => session(alloc, rest),
        "source" => source(alloc, rest),
        "sink" => sink(alloc, rest),
        "load" => load(alloc, rest),
        _ => plain_answer(alloc, codec, &words_of(alloc, rest)?),
    }
}

fn plain_answer(alloc: Global, codec: &str, words: &[&str]) -> Result<String, Fault> {
    match codec {
        "cut" => cut(alloc, words),
        "node" => node(alloc, words),
        "tree" => tree(alloc, words),
        "walk" => walk(alloc, words),
        _ => Err(Fault::Line),
    }
}
