// The rehearsal: a hall played through on standard input (document 01, 'Rehearsal').
//
// This only moves bytes. What is printed is decided by the crate rehearsing, whose contracts and
// theorem `rehearsal_in_pieces` say that over all pieces it is the text of document 01. Memory is
// fixed: the hall, one piece of input, and room for what that can print.
#![tactic(auto)]

ghost use Rattle.std.specs.Prelude.{◌≡◌, length};

use hall::HALL;
use rehearsing::{Rehearsal, end, play};
use std::io;
use std::io::{Read, Write};

// A piece of input, and room for an answer to each of its bytes.
const PIECE: usize = 32768;

const ROOM: usize = 720896;

fn zeros<const N: usize>() -> [u8; N]
    ensures { N ≡ length result }
{
    [0; N]
}

// Takes one piece and prints what it gives; whether more are wanted: none at the end of the input, nor
// when the rehearsal is over.
fn take<R: Read>(
    rt: &impl Print,
    from: &mut R,
    hall: &mut [u8],
    rehearsal: &mut Rehearsal,
    input: &mut [u8],
    out: &mut [u8],
) -> io::Result<bool> {
    let n = from.read(input)?;
    if n == 0 {
        return Ok(false);
    }
    let played = play(hall, *rehearsal, &input[..n], out);
    io::writer(rt).write_all(&out[..played.to])?;
    *rehearsal = played.rehearsal;
    Ok(!rehearsal.over())
}

// Nothing says that an input ends, so the pieces are counted, up to a number that none uses up.
fn take_all<R: Read>(
    rt: &impl Print,
    from: &mut R,
    hall: &mut [u8],
    input: &mut [u8],
    out: &mut [u8],
) -> io::Result<Rehearsal> {
    let mut rehearsal = Rehearsal::START;
    for _ in 0..u64::MAX {
        if !take(rt, from, hall, &mut rehearsal, input, out)? {
            break;
        }
    }
    Ok(rehearsal)
}

fn finish(
    rt: &impl Print,
    hall: &mut [u8],
    rehearsal: Rehearsal,
    out: &mut [u8],
) -> io::Result<()> {
    let ended = end(hall, rehearsal, out);
    io::writer(rt).write_all(&out[..ended.to])
}

fn rehearse<R: Read>(
    rt: &impl Print,
    from: &mut R,
    hall: &mut [u8],
    input: &mut [u8],
    out: &mut [u8],
) -> io::Result<()> {
    let rehearsal = take_all(rt, from, hall, input, out)?;
    finish(rt, hall, rehearsal, out)
}

fn main(rt: HostRuntime) -> io::Result<()> {
    let mut hall = zeros::<HALL>();
    let mut input = zeros::<PIECE>();
    let mut out = zeros::<ROOM>();
    // An answer takes 22 bytes at most.
    prove!(hall.len() == 60416 && input.len() == 32768 && out.len() == 22 * input.len());
    rehearse(&rt, &mut rt.reader(), &mut hall, &mut input, &mut out)
}
