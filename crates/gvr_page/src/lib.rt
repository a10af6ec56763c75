//! The call of the page: words and a text come in, out, err and the status go back.
#![tactic(auto)]

ghost use Rattle.std.specs.Prelude.{◌≡◌, ◌≤◌, List, ℕ, [], length, take, map, string_bytes};
ghost use Rattle.command_words.specs.Words.{Word};
ghost use Rattle.page_answer.specs.Page.{AreWords, first_of};
ghost use Rattle.gvr_page.specs.Page.{IsSaid};

mod page_source;

use gv_top::offline;
use page_answer::{PageSink, Program, Said, answer};
use page_source::PageSource;
use std::alloc::Global;
use world::ScriptWorld;
use wsgi_core::ShippedApp;

/// The status where the words name a server, which a page has not.
const NO_SERVER: u32 = 256;

/// The status of want of memory.
const OUT_OF_MEMORY: u32 = 7;

/// The program that the page has.
struct Gvr;

impl Program for Gvr {
    ghost says = { IsSaid };

    // Native workers, which a page has not, would be a script.
    fn run(
        &self,
        alloc: Global,
        words: &[String],
        text: Vec<u8>,
        out: &mut PageSink,
        err: &mut PageSink,
    ) -> u32 {
        let mut input = PageSource::new(alloc, text);
        let mut native = ScriptWorld::new(alloc, 0);
        let status = offline(alloc, words, &mut input, out, err, &mut native, &ShippedApp);
        // That a sink is full where a write failed is known of those that are looked at.
        let _ = out.bytes();
        let _ = err.bytes();
        match status {
            Some(status) => u32::from(status),
            None => NO_SERVER,
        }
    }
}

/// Does what the words name, which LFs part, with this text as the input, and answers the status. The first bytes of
/// `out` and of `err` are then what the program writes to its standard output and its standard error, and `said` has
/// how many these are; what stands behind them may have changed too.
///
/// The status is that of the program, and 256 where the words name a server. With 4, 5 and 7 `out` has a beginning of
/// the program's output: with 5 `out` or `err` is full, and with 7 memory ran out; 4 never comes. Where that was
/// before the text was read, nothing is written, no line on `err` either.
#[unsafe(no_mangle)]
pub extern "C" fn gvr_answer(
    alloc: Global,
    words: &[u8],
    text: &[u8],
    out: &mut [u8],
    err: &mut [u8],
    said: &mut Said,
) -> u32
    ensures room { (said.new.out ≤ length out.new) × (said.new.err ≤ length err.new) }
    ensures said { (all : List Word) × AreWords words.now all × IsSaid result all text.now (first_of said.new.out out.new) (first_of said.new.err err.new) }
{
    match answer::<Gvr>(alloc, &Gvr, words, text, out, err) {
        Ok(answered) => {
            *said = answered.said;
            answered.status
        }
        Err(_) => {
            said.out = 0;
            said.err = 0;
            OUT_OF_MEMORY
        }
    }
}
