// The listing of a block, handed to standard output, and `inspect` as a function, with its contract.
#![tactic(auto)]

ghost use Rattle.std.specs.Prelude.{◌≡◌};
ghost use Rattle.machine.specs.Run.{fixed_sizes};
ghost use Rattle.listing.specs.Listing.{listing_of};
ghost use Rattle.host.specs.Exchange.{Handed};
ghost use Rattle.inspect_run.specs.Inspects.{Inspects};

use host::{Exchange, FILE_BYTES, print, read_block_file};
use listing::MAX_LISTING;
use machine::layout::{CELLS_SIZE, FRAMES_SIZE, KEYS_SIZE, PLAN_SIZE, SEATS_SIZE, STATUS_SIZE};
use std::rt::Files;

// block.bin, listed: whether its end was met, and how the exchange stands.
#[derive(Clone, Copy)]
pub struct Inspected {
    pub file_ended: bool,
    pub exchange: Exchange,
}

// The listing of a block, handed to standard output.
pub fn print_listing(
    rt: &(impl Print + Eprint),
    x: Exchange,
    block: &[u8],
    transcript: &mut [u8],
) -> Exchange
    ensures text { Handed transcript.old x (listing_of fixed_sizes block.now) transcript.new result }
    ensures received { result.received ≡ x.received }
{
    let mut plan = [0u64; PLAN_SIZE];
    let mut keys = [0u64; KEYS_SIZE];
    let mut cells = [0i64; CELLS_SIZE];
    let mut status = [0u64; STATUS_SIZE];
    let mut seats = [0u64; SEATS_SIZE];
    let mut frames = [0i64; FRAMES_SIZE];
    let mut text = [0u8; MAX_LISTING];
    let length = listing::list(
        block,
        &mut plan,
        &mut keys,
        &mut cells,
        &mut status,
        &mut seats,
        &mut frames,
        &mut text,
    );
    print(rt, x, &text[..length], transcript)
}

// Lists block.bin of the current folder. A missing file is read as empty; where a file cannot be read nothing is listed.
pub fn inspect(rt: &(impl Files + Print + Eprint), transcript: &mut [u8]) -> Option<Inspected>
    ensures { Inspects transcript.old result transcript.new }
{
    let mut file = [0u8; FILE_BYTES];
    let read = read_block_file(rt, &mut file)?;
    let exchange = print_listing(rt, Exchange::new(), &file[..read.length], transcript);
    Some(Inspected {
        file_ended: read.ended,
        exchange,
    })
}
