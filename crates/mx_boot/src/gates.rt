//! The gates of a plan, and step 7 of the tests: faults 14 to 17 of gates.

ghost use Rattle.std.specs.Prelude.{◌≡◌, [], ◌∷◌, map};
ghost use Rattle.std.specs.List.{flat_map};
ghost use Rattle.mx_words.specs.FirstRow.{first_row};
ghost use Rattle.mx_model.specs.Gates.{has_gate};
ghost use Rattle.mx_elf.specs.Known.{HoldsIn};
ghost use Rattle.mx_manifest.specs.declared.parts.EntryPlan.{EntryPlan};
ghost use Rattle.mx_boot.specs.Entries.{entry_address, call_requests, request, requests, requests_of, return_request};
ghost use Rattle.mx_boot.specs.Faults.{gate_rows};
ghost use Rattle.mx_boot.specs.Laid.{AreAsked};
ghost use Rattle.mx_boot.specs.Seen.{seen};

use crate::area::Area;
use crate::entries::{entry_fault, known_address, word_at};
use crate::home::{Home, home_at};
use crate::images::Images;
use crate::named::gate_symbols;
use crate::refused::{LayoutRefused, at_module, fault};
use mx_elf::Symbols;
use mx_manifest::{BootFault, GatePlan, Key, Plan};
use mx_model::Gate;
use mx_words::MOST_GATES;
use std::alloc::Global;

/// A gate that is asked for.
#[derive(Clone, Copy)]
pub(crate) struct Request {
    /// The key by which it is asked for: `Gates` or `Returns`.
    pub key: Key,
    /// The address that its entry means; None where the image has no such symbol.
    pub address: Option<u32>,
    /// The gate, whose target is the module that asks.
    pub gate: Gate,
}

/// A gate into a module at the address that one of its entries means, for a domain.
fn request_for(home: Home, key: Key, address: Option<u32>, domain: u32) -> Request
    ensures { (entry : EntryPlan) → address ≡ entry_address (seen home.entry).bytes entry →
        result ≡ request (seen home.entry) key entry domain }
{
    Request {
        key,
        address,
        gate: Gate {
            domain,
            word: word_at(address.unwrap_or(0)),
            target: home.domain,
        },
    }
}

/// Whether a gate stands for a domain at a word.
fn has_gate(gates: &[Gate], domain: u32, word: u32) -> bool
    ensures { result ≡ has_gate gates.now domain word }
{
    gates
        .iter()
        .any(|gate| gate.domain == domain && gate.word == word)
}

/// Faults 14 to 17 of a gate after the earlier ones.
fn gate_fault(areas: &[Area], earlier: &[Gate], request: Request) -> Option<BootFault>
    ensures { result ≡ first_row (gate_rows areas.now earlier.now request) }
{
    let gate = request.gate;
    let place = at_module(gate.target, request.key);
    if let Some(fault) = entry_fault(areas, place, gate.target, request.address) {
        return Some(fault);
    }
    if has_gate(earlier, gate.domain, gate.word) {
        return Some(fault(16, place, 0));
    }
    if earlier.len() == MOST_GATES {
        return Some(fault(17, place, 0));
    }
    None
}

/// Adds a gate that is asked for.
fn ask(areas: &[Area], gates: &mut Vec<Gate>, request: Request) -> Result<(), LayoutRefused>
    ensures { AreAsked areas.now gates.old.items (request ∷ []) gates.new.items result }
{
    if let Some(fault) = gate_fault(areas, gates.as_slice(), request) {
        return Err(LayoutRefused::Fault(fault));
    }
    match gates.push(request.gate) {
        Ok(()) => Ok(()),
        Err(_) => Err(LayoutRefused::NoMemory),
    }
}

/// Adds the gates of a module at one of its entries.
fn ask_call(
    areas: &[Area],
    gates: &mut Vec<Gate>,
    home: Home,
    symbols: &Symbols,
    gate: &GatePlan,
) -> Result<(), LayoutRefused>
    requires { HoldsIn (seen home).bytes symbols.now }
    ensures { AreAsked areas.now gates.old.items (call_requests (seen home.entry) gate.now)
        gates.new.items result }
{
    let address = known_address(home.file, symbols, &gate.entry);
    'names: for k in 0..gate.from.len() {
        let request = request_for(home, Key::Gates, address, gate.from.get(k));
        match ask(areas, gates, request) {
            Ok(()) => {}
            Err(refused) => return Err(refused),
        }
    }
    Ok(())
}

/// Adds the call gates of a module.
fn ask_calls(
    areas: &[Area],
    gates: &mut Vec<Gate>,
    home: Home,
    symbols: &Symbols,
) -> Result<(), LayoutRefused>
    requires { HoldsIn (seen home).bytes symbols.now }
    ensures { let h = seen home.entry in
        AreAsked areas.now gates.old.items (flat_map (call_requests h) h.plan.gates)
        gates.new.items result }
{
    'gates: for k in 0..home.plan.gates.len() {
        match ask_call(areas, gates, home, symbols, home.plan.gates.get(k)) {
            Ok(()) => {}
            Err(refused) => return Err(refused),
        }
    }
    Ok(())
}

/// Adds the return gates of a module.
fn ask_returns(
    areas: &[Area],
    gates: &mut Vec<Gate>,
    home: Home,
    symbols: &Symbols,
) -> Result<(), LayoutRefused>
    requires { HoldsIn (seen home).bytes symbols.now }
    ensures { let h = seen home.entry in
        AreAsked areas.now gates.old.items (map (return_request h) h.plan.returns)
        gates.new.items result }
{
    'returns: for k in 0..home.plan.returns.len() {
        let address = known_address(home.file, symbols, home.plan.returns.get(k));
        let request = request_for(home, Key::Returns, address, home.domain);
        match ask(areas, gates, request) {
            Ok(()) => {}
            Err(refused) => return Err(refused),
        }
    }
    Ok(())
}

/// Adds the gates of a module, whose symbols may be known already.
fn ask_both(
    areas: &[Area],
    gates: &mut Vec<Gate>,
    home: Home,
    symbols: &Symbols,
) -> Result<(), LayoutRefused>
    requires { HoldsIn (seen home).bytes symbols.now }
    ensures { AreAsked areas.now gates.old.items (requests_of (seen home.entry))
        gates.new.items result }
{
    match ask_calls(areas, gates, home, symbols) {
        Ok(()) => ask_returns(areas, gates, home, symbols),
        Err(refused) => Err(refused),
    }
}

/// Adds the gates of a module.
fn ask_module(
    alloc: Global,
    areas: &[Area],
    gates: &mut Vec<Gate>,
    home: Home,
) -> Result<(), LayoutRefused>
    ensures { AreAsked areas.now gates.old.items (requests_of (seen home.entry))
        gates.new.items result }
{
    match gate_symbols(alloc, home) {
        Ok(symbols) => ask_both(areas, gates, home, &symbols),
        Err(_) => Err(LayoutRefused::NoMemory),
    }
}

/// Adds the gates of all modules, in the order in which they are judged; or the first of their faults.
pub(crate) fn ask_gates(
    alloc: Global,
    areas: &[Area],
    gates: &mut Vec<Gate>,
    plan: &Plan,
    images: &Images,
) -> Result<(), LayoutRefused>
    ensures { AreAsked areas.now gates.old.items (requests plan.now images.now)
        gates.new.items result }
{
    'modules: for i in 0..plan.modules() {
        match ask_module(alloc, areas, gates, home_at(plan, images, i)) {
            Ok(()) => {}
            Err(refused) => return Err(refused),
        }
    }
    Ok(())
}
