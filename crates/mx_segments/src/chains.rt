//! Lists of frame numbers, one for each domain.
ghost use Rattle.std.specs.Prelude.{◌≡◌, ◌+◌, ◌-◌, ◌<◌, ◌≤◌, [], ◌∷◌, ◌++◌, length, take, replicate, slice_index};
ghost use Rattle.std.specs.Prelude.{slice_set, vec_len, vec_capacity, IfOk};
ghost use Rattle.mx_words.specs.Limits.{most_modules};
ghost use Rattle.mx_segments.specs.Lists.{list_at, chain_of, longest_list};

use mx_words::NoMemory;
use std::alloc::Global;
use std::marker::Model;

/// Lists of frame numbers, one for each domain from 1 on, in which the domain's entries stand one after the other.
///
/// All memory is taken when the lists are made.
#[derive(Drop)]
pub struct Chains {
    lists: Vec<Vec<u32>>,
    /// How many frame numbers each list has memory for.
    room: u32,
}

impl Model for Chains {
    ghost use Rattle.std.specs.Prelude.{All, map, length, vec_items, ◌≤◌};
    ghost use Rattle.mx_words.specs.Limits.{most_modules};
    ghost use Rattle.mx_segments.specs.Lists.{Chained, IsRoomy, longest_list};

    ghost Value = { Chained };

    ghost view = { λ c. record { lists = map vec_items c.lists.items; room = c.room } };

    ghost invariant = { λ c. (length c.lists.items ≤ most_modules)
        × ((c.room ≤ longest_list) × All (IsRoomy c.room) c.lists.items) };
}

impl Chains {
    /// The length of a domain's list. Domains count from 1.
    pub fn frames(&self, domain: u32) -> u32
        requires first { 1 ≤ domain }
        requires last { domain ≤ length self.now.lists }
        ensures { result ≡ length (chain_of self.now.lists domain) }
    {
        self.len_at(domain - 1)
    }

    /// The frame number at place `i` of a domain's list. Places count from 0 and are below `frames`.
    pub fn get(&self, domain: u32, i: u32) -> u32
        requires first { 1 ≤ domain }
        requires last { domain ≤ length self.now.lists }
        requires place { i < length (chain_of self.now.lists domain) }
        ensures { result ≡ slice_index (chain_of self.now.lists domain) i }
    {
        self.frame_at(domain - 1, i)
    }

    // The length of the list at a row, which counts from 0.
    pub(crate) fn len_at(&self, row: u32) -> u32
        requires { row < length self.now.lists }
        ensures len { result ≡ length (list_at self.now.lists row) }
        ensures few { length (list_at self.now.lists row) ≤ longest_list }
    {
        self.lists[row as usize].len() as u32
    }

    // The frame number at a place of the list at a row.
    pub(crate) fn frame_at(&self, row: u32, i: u32) -> u32
        requires row { row < length self.now.lists }
        requires place { i < length (list_at self.now.lists row) }
        ensures { result ≡ slice_index (list_at self.now.lists row) i }
    {
        self.lists[row as usize][i as usize]
    }

    // The number of lists.
    pub(crate) fn count(&self) -> u32
        ensures count { result ≡ length self.now.lists }
        ensures few { length self.now.lists ≤ most_modules }
    {
        self.lists.len() as u32
    }

    // Appends a frame number to the list at a row.
    pub(crate) fn push(&mut self, row: u32, frame: u32)
        requires row { row < length self.old.lists }
        requires room { length (list_at self.old.lists row) < self.old.room }
        ensures lists { self.new.lists
            ≡ slice_set self.old.lists row (list_at self.old.lists row ++ frame ∷ []) }
        ensures same_room { self.new.room ≡ self.old.room }
    {
        append(&mut self.lists[row as usize], frame);
    }

    // Takes the last frame number from the list at a row.
    pub(crate) fn pop(&mut self, row: u32) -> u32
        requires row { row < length self.old.lists }
        requires some { 0 < length (list_at self.old.lists row) }
        ensures frame { result
            ≡ slice_index (list_at self.old.lists row) (length (list_at self.old.lists row) - 1) }
        ensures rest { self.new.lists ≡ slice_set self.old.lists row
            (take (length (list_at self.old.lists row) - 1) (list_at self.old.lists row)) }
        ensures same_room { self.new.room ≡ self.old.room }
    {
        cut(&mut self.lists[row as usize])
    }
}

fn append(list: &mut Vec<u32>, frame: u32)
    requires room { vec_len list.old < vec_capacity list.old }
    ensures items { list.new.items ≡ list.old.items ++ frame ∷ [] }
    ensures len { vec_len list.new ≡ vec_len list.old + 1 }
    ensures capacity_stays { vec_capacity list.old ≤ vec_capacity list.new }
{
    match list.push(frame) {
        Ok(()) => (),
        Err(_) => unreachable!(),
    }
}

fn cut(list: &mut Vec<u32>) -> u32
    requires { 0 < vec_len list.old }
    ensures last { result ≡ slice_index list.old.items (vec_len list.old - 1) }
    ensures items { list.new.items ≡ take (length list.old.items - 1) list.old.items }
    ensures len { vec_len list.new + 1 ≡ vec_len list.old }
    ensures capacity_stays { vec_capacity list.old ≤ vec_capacity list.new }
{
    match list.pop() {
        Some(frame) => frame,
        None => unreachable!(),
    }
}

/// Empty lists for `rows` domains, each with memory for `room` frame numbers, at most 2^18.
pub(crate) fn empty_chains(alloc: Global, rows: u32, room: u32) -> Result<Chains, NoMemory>
    requires rows { rows ≤ most_modules }
    requires room { room ≤ longest_list }
    ensures lists { IfOk result (λ c. c.lists ≡ replicate rows []) }
    ensures room { IfOk result (λ c. c.room ≡ room) }
{
    let mut lists = Vec::new(alloc);
    for _ in 0..rows {
        let list = Vec::with_capacity(alloc, room as usize)?;
        lists.push(list)?;
    }
    Ok(Chains { lists, room })
}
