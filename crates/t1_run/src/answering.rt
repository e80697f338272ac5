//! From the words of the command line to a status.

ghost use Rattle.std.specs.Prelude.{◌≡◌, Some, false, map, option_map};
ghost use Rattle.std.specs.Fn.{FnOnceReturnsAt};
ghost use Rattle.t1_run.specs.Answering.{Answers, NamesFont, NamesWaivers, RunsOn};
ghost use Rattle.t1_run.specs.Opening.{opening_by, sinks_by};

use crate::answered::Answered;
use crate::failure::Failure;
use crate::program::Program;
use crate::running::run;
use crate::status::Status;
use crate::streams::Streams;
use crate::telling::tell_failure;
use crate::usage::explain;
use std::alloc::Global;
use std::convert::AsStr;
use std::io;
use std::io::Read;
use t1_io::{In, Sink, Source};

/// Handles the words of the command line, the program's name first: explains why they yield no options, or runs. A
/// run reads the file that they name, which `open_font` opens, or `input` where they name none. It uses the waivers of
/// the file that `open_waivers` opens, if they are requested. A file is opened at most where the words name it.
/// The files are returned, so that the contract can say what was read of them.
pub fn answer<P, S, I, F, O, Q, W, E>(
    alloc: Global,
    words: &[S],
    input: &mut I,
    open_font: O,
    open_waivers: Q,
    streams: &mut Streams<W, E>,
) -> Answered<F>
where
    P: Program,
    S: AsStr,
    I: Source,
    F: Read + Drop,
    O: FnOnce(&str) -> io::Result<F>,
    Q: FnOnce(&str) -> io::Result<F>,
    W: Sink,
    E: Sink,
    requires input { (I.state input.old).failed ≡ false }
    requires open_font { (name : _) → NamesFont P.meaning (map S.text words.now) name.now → O.pre open_font name }
    requires open_waivers { (name : _) → NamesWaivers P.meaning (map S.text words.now) name.now → Q.pre open_waivers name }
    ensures { Answers P.meaning (map S.text words.now)
        (record {
          font = record {
            opening = opening_by (FnOnceReturnsAt O.FnOnce open_font) F.remaining;
            left = option_map (λ s. ⟦<In<F> as Source>⟧.state s) result.font;
          };
          waivers = record {
            opening = opening_by (FnOnceReturnsAt Q.FnOnce open_waivers) F.remaining;
            left = option_map (λ s. ⟦<In<F> as Source>⟧.state s) result.waivers;
          };
        })
        (record { old = I.state input.old; new = I.state input.new })
        (record { old = sinks_by W.state E.state streams.old; new = sinks_by W.state E.state streams.new }) result.status }
{
    let options = match P::read_words(alloc, words) {
        Ok(options) => options,
        Err(error) => {
            return Answered {
                status: explain(P::name(), &error, streams),
                font: None,
                waivers: None,
            };
        }
    };
    let Some(name) = options.font() else {
        let (status, waivers) = run_on(alloc, &options, input, open_waivers, streams);
        return Answered {
            status,
            font: None,
            waivers,
        };
    };
    match open_font(name) {
        Ok(file) => {
            let mut source = In::new(file);
            let (status, waivers) = run_on(alloc, &options, &mut source, open_waivers, streams);
            Answered {
                status,
                font: Some(source),
                waivers,
            }
        }
        Err(_) => Answered {
            status: tell_failure(P::name(), Failure::Broken, &mut streams.errors),
            font: None,
            waivers: None,
        },
    }
}

/// Runs on a source, with the waivers of the file that the options name, which is returned.
fn run_on<P, R, F, Q, W, E>(
    alloc: Global,
    options: &P,
    source: &mut R,
    open_waivers: Q,
    streams: &mut Streams<W, E>,
) -> (Status, Option<In<F>>)
where
    P: Program,
    R: Source,
    F: Read + Drop,
    Q: FnOnce(&str) -> io::Result<F>,
    W: Sink,
    E: Sink,
    requires source { (R.state source.old).failed ≡ false }
    requires open_waivers { (name : _) → P.meaning.waivers options.now ≡ Some name.now → Q.pre open_waivers name }
    ensures { RunsOn P.meaning options.now
        (record {
          opening = opening_by (FnOnceReturnsAt Q.FnOnce open_waivers) F.remaining;
          left = option_map (λ s. ⟦<In<F> as Source>⟧.state s) result.1;
        })
        (record { old = R.state source.old; new = R.state source.new })
        (record { old = sinks_by W.state E.state streams.old; new = sinks_by W.state E.state streams.new }) result.0 }
{
    match options.waivers() {
        Some(name) => match open_waivers(name) {
            Ok(file) => {
                let mut waivers = In::new(file);
                let status = run(alloc, options, source, &mut waivers, streams);
                (status, Some(waivers))
            }
            Err(_) => (
                tell_failure(P::name(), Failure::Broken, &mut streams.errors),
                None,
            ),
        },
        None => {
            let mut none = In::new(io::empty());
            (run(alloc, options, source, &mut none, streams), None)
        }
    }
}
