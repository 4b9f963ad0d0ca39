//! Many looks at a registry of many handles.
use super::board::{Board, ask_for};
use cases::{cut, number_of};
use shape_base::{Ask, OutOfMemory};
use std::alloc::Global;

/// The identity of a place.
fn identity_at(alloc: Global, place: u64) -> Result<String, OutOfMemory> {
    Ok(format!(in alloc; "\"public\".\"items\"|id,n,s|\"n\" = {place}")?)
}

/// A request for each of so many identities, every other one with the handle of its number.
fn asks(alloc: Global, live: u64) -> Result<Vec<Ask>, OutOfMemory> {
    let mut asks = Vec::new(alloc);
    for place in 0..live {
        let identity = identity_at(alloc, place)?;
        let handle = if place % 2 == 0 {
            format!(in alloc; "{}-r", place.saturating_add(1))?
        } else {
            String::new(alloc)
        };
        asks.push(ask_for(alloc, identity.as_str(), handle.as_str())?)?;
    }
    Ok(asks)
}

/// A registry in which so many identities are ready.
fn board_of(alloc: Global, live: u64) -> Result<Board, OutOfMemory> {
    let mut board = Board::new(alloc, live)?;
    for place in 0..live {
        let identity = identity_at(alloc, place)?;
        board.start(alloc, identity.as_str())?;
    }
    Ok(board)
}

/// How many of the looks at these requests, in turn, find a ready handle.
fn count_ready(board: &Board, asks: &[Ask], count: u64) -> u64 {
    let mut ready = 0u64;
    let mut place = 0usize;
    for _ in 0..count {
        if place >= asks.len() {
            place = 0;
        }
        if let Some(ask) = asks.get(place) {
            if board.is_ready(ask) {
                ready = ready.saturating_add(1);
            }
            place = place.saturating_add(1);
        }
    }
    ready
}

/// So many live handles and so many looks: how many of them found a ready handle.
pub fn lookups_line(alloc: Global, words: &str) -> Result<String, OutOfMemory> {
    let (live, count) = cut(words, ' ');
    let board = board_of(alloc, number_of(live))?;
    let asks = asks(alloc, number_of(live))?;
    let ready = count_ready(&board, asks.as_slice(), number_of(count));
    Ok(format!(in alloc; "{ready} ready")?)
}
