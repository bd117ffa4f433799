//! The words of a command line and what they ask.

ghost use Rattle.std.specs.Prelude.{◌≡◌, ◌^◌, ◌<◌, [], ◌∷◌, ◌++◌, map, fold, option_map, OnOk, OnErr, IfSome};
ghost use Rattle.std.specs.Prelude.{string_bytes};
ghost use Rattle.std.specs.Option.{option_copied};
ghost use Rattle.mx_commands.specs.Asked.{order_of, pair_asked};
ghost use Rattle.mx_commands.specs.Order.{nothing};
ghost use Rattle.mx_run.specs.Asked.{request_of, parsed_of};
ghost use Rattle.mx_run.specs.Words.{Stands, debug_meaning, go_request, meaning, mill_number, only_name, order_in};
ghost use Rattle.mx_run.specs.Words.{pair_of, with_word};

use crate::options::{Parse, is_name, is_number, number, with_word};
use mx_commands::{Order, Pair, Shown, Way};
use mx_turns::Steps;
use mx_words::NoMemory;
use std::alloc::Global;
use std::marker::Model;

/// The words of a command line, without the program's name, in order.
#[derive(Drop)]
pub struct Words {
    alloc: Global,
    list: Vec<String>,
}

impl Model for Words {
    ghost use Rattle.std.specs.Prelude.{ℕ, List, map, string_bytes};

    ghost Value = { List (List ℕ) };

    ghost view = { λ words. map string_bytes words.list.items };
}

/// What the words ask.
#[derive(Clone, Copy)]
pub enum Asked<'a> {
    /// A run of some way.
    Go(Order<'a>),
    /// To assemble the source of this name, which has 1 to 255 bytes.
    Asm(&'a str),
    /// To audit the manifest of this name, which has 1 to 255 bytes.
    Audit(&'a str),
    /// To compare a domain of two machines.
    Twin(Pair<'a>),
    /// To run the manifest that is made for this number, at most 2147483647.
    Mill(u32),
}

impl Words {
    /// No words. Takes no memory.
    pub fn new(alloc: Global) -> Words
        ensures { result ≡ [] }
    {
        Words {
            alloc,
            list: Vec::new(alloc),
        }
    }

    /// Adds a word at the end. Refuses only where memory is wanting, and then changes nothing.
    pub fn push(&mut self, word: &str) -> Result<(), NoMemory>
        ensures ok { OnOk result (self.new ≡ self.old ++ word.now ∷ []) }
        ensures err { OnErr result (self.new ≡ self.old) }
    {
        let text = String::from_str(self.alloc, word)?;
        self.list.push(text)?;
        Ok(())
    }

    /// What the words ask, or nothing exactly where they have no meaning. Takes no memory.
    pub fn asked(&self) -> Option<Asked<'_>>
        ensures meaning { option_map request_of result ≡ meaning self.now }
    {
        let (command, operands) = self.list.as_slice().split_first()?;
        match command.as_str() {
            "run" => go_words(Way::Run, operands),
            "resume" => go_words(Way::Resume, operands),
            "trace" => go_words(Way::Trace, operands),
            "asm" => Some(Asked::Asm(only_name(operands)?)),
            "audit" => Some(Asked::Audit(only_name(operands)?)),
            "twin" => Some(Asked::Twin(pair_of(operands)?)),
            "mill" => Some(Asked::Mill(mill_number(operands)?)),
            _ => None,
        }
    }

    /// What the words ask of the debugger, or nothing exactly where they aren't `debug`, a manifest's name, a number of
    /// steps, and at
    /// most a schedule. Takes no memory.
    pub fn asked_debug(&self) -> Option<Order<'_>>
        ensures meaning { option_map order_of result ≡ debug_meaning self.now }
    {
        let (command, operands) = self.list.as_slice().split_first()?;
        match command.as_str() {
            "debug" => order_in(None, operands),
            _ => None,
        }
    }
}

// The one name that the operands are.
fn only_name(operands: &[String]) -> Option<&str>
    ensures { option_copied result ≡ only_name (map string_bytes operands.now) }
{
    if operands.len() == 1 && is_name(operands[0].as_str()) {
        Some(operands[0].as_str())
    } else {
        None
    }
}

// The two manifests, the domain and the steps that the operands are.
fn pair_of(operands: &[String]) -> Option<Pair<'_>>
    ensures pair { option_map pair_asked result ≡ pair_of (map string_bytes operands.now) }
{
    if operands.len() != 4 {
        return None;
    }
    let first = operands[0].as_str();
    let second = operands[1].as_str();
    let domain = operands[2].as_str();
    let steps = operands[3].as_str();
    if is_name(first) && is_name(second) && is_number(domain) && is_number(steps) {
        Some(Pair {
            first,
            second,
            domain: number(domain.as_bytes()),
            steps: Steps {
                count: number(steps.as_bytes()),
            },
        })
    } else {
        None
    }
}

// The number that the operands are.
fn mill_number(operands: &[String]) -> Option<u32>
    ensures { result ≡ mill_number (map string_bytes operands.now) }
{
    if operands.len() != 1 || !is_number(operands[0].as_str()) {
        return None;
    }
    let k = number(operands[0].as_str().as_bytes());
    if k <= 2147483647 {
        Some(k as u32)
    } else {
        None
    }
}

// The run of this way that the operands are.
fn go_words(way: Way, operands: &[String]) -> Option<Asked<'_>>
    ensures meaning { option_map request_of result ≡ go_request way (map string_bytes operands.now) }
{
    Some(Asked::Go(order_in(Some(way), operands)?))
}

// The run that the operands are, with the asker's options: those of a way, or of the debugger with none.
fn order_in(asker: Option<Way>, operands: &[String]) -> Option<Order<'_>>
    ensures order { option_map order_of result ≡ order_in asker (map string_bytes operands.now) }
{
    if operands.len() < 2 {
        return None;
    }
    let file = operands[0].as_str();
    let steps = operands[1].as_str();
    if !is_name(file) || !is_number(steps) {
        return None;
    }
    match with_options(asker, &operands[2..]) {
        Parse::Stands(schedule, shown) => Some(Order {
            way: asker.unwrap_or(Way::Run),
            file,
            steps: Steps {
                count: number(steps.as_bytes()),
            },
            schedule,
            shown,
        }),
        _ => None,
    }
}

// What options make of a run without any.
fn with_options(asker: Option<Way>, options: &[String]) -> Parse<'_>
    ensures { parsed_of result
        ≡ fold (with_word asker) (Stands None nothing) (map string_bytes options.now) }
{
    let mut parse = Parse::Stands(None, Shown::default());
    for option in options {
        parse = with_word(asker, parse, option.as_str());
    }
    parse
}
