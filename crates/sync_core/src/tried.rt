//! Items that were asked for at some time, with their asks.

ghost use Rattle.std.specs.Prelude.{◌≡◌, ◌&&◌, not, map, filter, fold, find, option_map, is_some, if◌then◌else◌, ◌≤◌, vec_len, vec_capacity, ℕ, ◌<◌, ◌+◌, ◌^◌, ◌++◌, ◌∷◌, [], length, slice_index_or};
ghost use Rattle.std.specs.Option.{option_copied};
ghost use Rattle.std.specs.List.{list_any};
ghost use Rattle.format_spec.specs.declared.limits.TheConstants.{MAX_PEERS as max_peers};
ghost use Rattle.sync_plan.specs.Views.{item_of};
ghost use Rattle.sync_spec.specs.Core.{same_item, has_item, is_old as is_old_ask, without_ask, is_asked_of as is_ask_of, asks_of, with_ask_now, is_unasked, with_strike_for_ask};
ghost use Rattle.sync_core.specs.Views.{wanted_of, all_wanted};

use crate::peers::strike;
use format_spec::{MAX_PEERS, MAX_TURNS};
use sync_plan::Item;

/// An ask in flight: to this peer, since this turn.
#[derive(Clone, Copy, Debug)]
pub(crate) struct Flight {
    pub(crate) peer: u32,
    pub(crate) turn: u64,
}

/// An item that is missing, with its ask where it has one.
#[derive(Clone, Copy, Debug)]
pub(crate) struct Wanted {
    pub(crate) item: Item,
    pub(crate) ask: Option<Flight>,
}

fn is_same(a: Item, b: Item) -> bool
    ensures { result ≡ same_item (item_of a) (item_of b) }
{
    match (a, b) {
        (Item::Meta, Item::Meta) => true,
        (Item::Piece(a), Item::Piece(b)) => a == b,
        (Item::Chunk(a), Item::Chunk(b)) => a == b,
        _ => false,
    }
}

fn is_old(wanted: &Wanted, turn: u64) -> bool
    ensures { result ≡ is_old_ask turn (wanted_of wanted.now) }
{
    match wanted.ask {
        Some(ask) => turn >= MAX_TURNS as u64 && ask.turn <= turn - MAX_TURNS as u64,
        None => false,
    }
}

fn is_asked_of(wanted: &Wanted, peer: u32) -> bool
    ensures { result ≡ is_ask_of peer (wanted_of wanted.now) }
{
    match wanted.ask {
        Some(ask) => ask.peer == peer,
        None => false,
    }
}

// Where the item has an old ask, its peer has a strike more.
fn strike_for(wanted: &Wanted, turn: u64, strikes: &mut [u8])
    ensures { strikes.new ≡ (if is_old_ask turn (wanted_of wanted.now) then with_strike_for_ask strikes.old (wanted_of wanted.now) else strikes.old) }
{
    if let Some(ask) = wanted.ask
        && is_old(wanted, turn)
    {
        strike(strikes, ask.peer);
    }
}

/// Each peer of an old ask has a strike more.
pub(crate) fn strike_old(missing: &[Wanted], turn: u64, strikes: &mut [u8])
    ensures { strikes.new ≡ fold with_strike_for_ask strikes.old (filter (is_old_ask turn) (all_wanted missing.now)) }
{
    for wanted in missing {
        strike_for(wanted, turn, strikes);
    }
}

// The item, without an ask that is old.
fn without_old(wanted: Wanted, turn: u64) -> Wanted
    ensures { wanted_of result ≡ without_ask (is_old_ask turn) (wanted_of wanted) }
{
    if is_old(&wanted, turn) {
        Wanted {
            item: wanted.item,
            ask: None,
        }
    } else {
        wanted
    }
}

/// Each old ask is given up.
pub(crate) fn give_up_old(missing: &mut [Wanted], turn: u64)
    ensures { all_wanted missing.new ≡ map (without_ask (is_old_ask turn)) (all_wanted missing.old) }
{
    for wanted in missing.iter_mut() {
        *wanted = without_old(*wanted, turn);
    }
}

// The item, without the peer's ask where it is this item.
fn without_ask_of(wanted: Wanted, peer: u32, item: Item) -> Wanted
    ensures { wanted_of result ≡ without_ask (λ w. same_item w.item (item_of item) && is_ask_of peer w) (wanted_of wanted) }
{
    if is_same(wanted.item, item) && is_asked_of(&wanted, peer) {
        Wanted {
            item: wanted.item,
            ask: None,
        }
    } else {
        wanted
    }
}

/// The peer's ask for the item is given up.
pub(crate) fn give_up(missing: &mut [Wanted], peer: u32, item: Item)
    ensures { all_wanted missing.new ≡ map (without_ask (λ w. same_item w.item (item_of item) && is_ask_of peer w)) (all_wanted missing.old) }
{
    for wanted in missing.iter_mut() {
        *wanted = without_ask_of(*wanted, peer, item);
    }
}

// The item, asked for where it is this item.
fn asked(wanted: Wanted, peer: u32, item: Item, turn: u64) -> Wanted
    ensures { wanted_of result ≡ with_ask_now peer (item_of item) turn (wanted_of wanted) }
{
    if is_same(wanted.item, item) {
        Wanted {
            item: wanted.item,
            ask: Some(Flight { peer, turn }),
        }
    } else {
        wanted
    }
}

/// The item is asked for.
pub(crate) fn ask_for(missing: &mut [Wanted], peer: u32, item: Item, turn: u64)
    ensures { all_wanted missing.new ≡ map (with_ask_now peer (item_of item) turn) (all_wanted missing.old) }
{
    for wanted in missing.iter_mut() {
        *wanted = asked(*wanted, peer, item, turn);
    }
}

fn is_other(wanted: &Wanted, item: Item) -> bool
    ensures { result ≡ not (same_item (item_of wanted.now.item) (item_of item)) }
{
    !is_same(wanted.item, item)
}

fn remove_from(missing: &mut Vec<Wanted>, item: Item)
    ensures items { missing.new.items ≡ filter (λ w. not (same_item (item_of w.item) (item_of item))) missing.old.items }
    ensures room { vec_capacity missing.new ≡ vec_capacity missing.old }
{
    missing.retain(|wanted| is_other(wanted, item));
}

/// The item is no longer missing.
pub(crate) fn remove(missing: &mut Vec<Wanted>, item: Item)
    ensures items { all_wanted missing.new.items ≡ filter (λ w. not (same_item w.item (item_of item))) (all_wanted missing.old.items) }
    ensures room { vec_capacity missing.new ≡ vec_capacity missing.old }
{
    remove_from(missing, item);
}

fn is_among(missing: &[Wanted], item: Item) -> bool
    ensures { result ≡ list_any (λ w. same_item (item_of w.item) (item_of item)) missing.now }
{
    missing.iter().any(|wanted| is_same(wanted.item, item))
}

/// Whether the item is missing.
pub(crate) fn is_missing(missing: &[Wanted], item: Item) -> bool
    ensures { result ≡ has_item (all_wanted missing.now) (item_of item) }
{
    is_among(missing, item)
}

// One ask more of the peer that the item is asked of.
fn count_ask(asks: &mut [usize], wanted: &Wanted)
    requires { (peer d : ℕ) → peer < length asks.old → slice_index_or asks.old peer d + 1 < 2 ^ 64 }
    ensures { (peer d : ℕ) → peer < length asks.old → slice_index_or asks.new peer d ≡ slice_index_or asks.old peer d + asks_of (wanted_of wanted.now ∷ []) peer }
{
    if let Some(ask) = wanted.ask
        && (ask.peer as usize) < asks.len()
    {
        asks[ask.peer as usize] += 1;
    }
}

/// How many asks each peer has.
pub(crate) fn count_asks(missing: &[Wanted]) -> [usize; MAX_PEERS]
    ensures { (peer d : ℕ) → peer < max_peers → slice_index_or result peer d ≡ asks_of (all_wanted missing.now) peer }
{
    let mut asks = [0; MAX_PEERS];
    for wanted in missing {
        count_ask(&mut asks, wanted);
    }
    asks
}

fn find_unasked(missing: &[Wanted]) -> Option<&Wanted>
    ensures { option_copied result ≡ find (λ w. not (is_some w.ask)) missing.now }
{
    missing.iter().find(|wanted| wanted.ask.is_none())
}

/// The first item that is not asked for.
pub(crate) fn first_unasked(missing: &[Wanted]) -> Option<Item>
    ensures { option_map item_of result ≡ option_map (λ w. w.item) (find is_unasked (all_wanted missing.now)) }
{
    match find_unasked(missing) {
        Some(wanted) => Some(wanted.item),
        None => None,
    }
}

/// Puts an item behind the others, where there is room for it.
pub(crate) fn push(missing: &mut Vec<Wanted>, wanted: Wanted)
    requires { vec_len missing.old < vec_capacity missing.old }
    ensures items { missing.new.items ≡ missing.old.items ++ wanted ∷ [] }
    ensures room { vec_capacity missing.old ≤ vec_capacity missing.new }
{
    let _ = missing.push(wanted);
}
