//! LIKE (PostgreSQL manual, chapter 9.7.1).
ghost use Rattle.std.specs.Prelude.{◌≡◌, ◌∷◌, [], IfOk, MatchOption};
ghost use Rattle.std.specs.Str.{chars, IsUtf8};
ghost use Rattle.where_eval.specs.Like.{pieces_of, is_cut as is_cut_pattern, piece_of, is_run as is_run_piece, takes as takes_character, fits as fits_text};
ghost use Rattle.where_eval.specs.Walks.{IsRight};

use shape_base::OutOfMemory;
use std::alloc::Global;

/// What a pattern asks for in one place.
#[derive(Clone, Copy, Debug, Drop)]
pub enum Piece {
    /// Any run of characters.
    Run,
    /// One character.
    One,
    /// This character.
    Exactly(char),
}

/// The first character of a text, and the text behind it.
fn next_char(text: &str) -> Option<(char, &str)>
    ensures { MatchOption result (chars text.now ≡ []) (λ p. (chars text.now ≡ p.0 ∷ chars p.1.now) × IsUtf8 p.1.now) }
{
    let mut rest = text.chars();
    let first = rest.next()?;
    Some((first, rest.as_str()))
}

fn unescaped(c: char) -> Piece
    ensures { result ≡ piece_of c }
{
    match c {
        '%' => Piece::Run,
        '_' => Piece::One,
        _ => Piece::Exactly(c),
    }
}

/// Whether the pattern ends inside an escape.
pub fn is_cut(pattern: &str) -> bool
    ensures { result ≡ is_cut_pattern (chars pattern.now) }
{
    let mut left = pattern;
    while let Some((first, behind)) = next_char(left) {
        left = behind;
        if first == '\\' {
            match next_char(left) {
                Some((_, rest)) => left = rest,
                None => return true,
            }
        }
    }
    false
}

/// What the pattern asks for.
pub fn pieces(alloc: Global, pattern: &str) -> Result<Vec<Piece>, OutOfMemory>
    ensures { IfOk result (λ pieces. pieces.items ≡ pieces_of (chars pattern.now)) }
{
    let mut pieces = Vec::new(alloc);
    let mut left = pattern;
    while let Some((first, behind)) = next_char(left) {
        if first == '\\' {
            match next_char(behind) {
                Some((next, rest)) => {
                    pieces.push(Piece::Exactly(next))?;
                    left = rest;
                }
                None => {
                    pieces.push(Piece::Exactly('\\'))?;
                    left = behind;
                }
            }
        } else {
            pieces.push(unescaped(first))?;
            left = behind;
        }
    }
    Ok(pieces)
}

/// How far a text is like what is asked for before the next run.
#[derive(Clone, Copy)]
enum Walk<'a> {
    /// To its end.
    Whole,
    /// To a run; what is asked for behind it, and the text that is left.
    AtRun(&'a [Piece], &'a str),
    /// It is not.
    Stuck,
}

fn is_run(piece: Piece) -> bool
    ensures { result ≡ is_run_piece piece }
{
    matches!(piece, Piece::Run)
}

/// Whether the piece takes the character.
fn takes(piece: Piece, c: char) -> bool
    ensures { result ≡ takes_character piece c }
{
    match piece {
        Piece::Run => false,
        Piece::One => true,
        Piece::Exactly(wanted) => wanted == c,
    }
}

/// Goes along what is asked for and the text to the next run.
fn before_run<'a>(pieces: &'a [Piece], text: &'a str) -> Walk<'a>
    ensures { IsRight pieces.now (chars text.now) result }
{
    let mut asked = pieces;
    let mut left = text;
    while let Some((piece, others)) = asked.split_first() {
        if is_run(*piece) {
            return Walk::AtRun(others, left);
        }
        let Some((c, rest)) = next_char(left) else {
            return Walk::Stuck;
        };
        if !takes(*piece, c) {
            return Walk::Stuck;
        }
        asked = others;
        left = rest;
    }
    match next_char(left) {
        Some(_) => Walk::Stuck,
        None => Walk::Whole,
    }
}

/// Whether the text is like what is asked for, in at most as many steps as the product of the two lengths.
pub fn fits(pieces: &[Piece], text: &str) -> bool
    ensures { result ≡ fits_text pieces.now (chars text.now) }
{
    let mut asked = pieces;
    let mut left = text;
    let mut behind_run = false;
    loop {
        match before_run(asked, left) {
            Walk::Whole => return true,
            Walk::AtRun(others, rest) => {
                asked = others;
                left = rest;
                behind_run = true;
            }
            Walk::Stuck => {
                if !behind_run {
                    return false;
                }
                match next_char(left) {
                    Some((_, rest)) => left = rest,
                    None => return false,
                }
            }
        }
    }
}
