// The text of an order (document 01, the command `order`): `order` and the count, then number, arc
// letter, depth and path of each node, a line each. It reads an arena and writes lent bytes of the
// same size, in which every listing fits, and never changes the arena. The public function has no
// `requires`: it puts its questions first, and refused it has written nothing.
// model/specs/Listing.antt has the text, specs/Listings.antt what the call answers.
#![tactic(auto)]

mod text;

ghost use Rattle.std.specs.Prelude.{◌≡◌, ◌+◌, ◌≤◌, length, get_or};
ghost use Rattle.model.specs.Arena.{count_in, decode};
ghost use Rattle.model.specs.ArenaCalls.{ValidNode};
ghost use Rattle.model.specs.Listing.{arc_letters, listing};
ghost use Rattle.listing.specs.Listings.{ListingWritten};
ghost use Rattle.listing.specs.Texts.{head_line, line_of, line_front, line_rest, lines_of, Put, CanList};

use model::Refusal;

// The letter of each arc: Root, Inherit, Variant, Relocate, Reference, Payload, Specialize.
const LETTERS: [u8; 7] = [b'L', b'I', b'V', b'E', b'R', b'P', b'S'];

// The letter of an arc.
fn letter(arc: u8) -> u8
    requires { arc ≤ 6 }
    ensures { result ≡ get_or arc_letters arc 0 }
{
    LETTERS[arc as usize]
}

// Puts `order` and the count.
fn put_head(out: &mut [u8], count: u32) -> usize
    requires { 27 ≤ length out.old }
    ensures { Put 0 (head_line count) out.old result out.new }
{
    let named = text::put_bytes(out, 0, b"order ");
    let counted = text::put_number(out, named, count);
    text::put_byte(out, counted, b'\n')
}

// Puts the number, the arc's letter and the depth.
fn put_front(out: &mut [u8], at: usize, n: u32, arc: u8, depth: u16) -> usize
    requires { (at + 43 ≤ length out.old) × (arc ≤ 6) }
    ensures { Put at (line_front n arc depth) out.old result out.new }
{
    let numbered = text::put_number(out, at, n);
    let between = [b' ', letter(arc), b' '];
    let lettered = text::put_bytes(out, numbered, &between);
    text::put_number(out, lettered, depth as u32)
}

// Puts the path, and ends the line.
fn put_rest(out: &mut [u8], at: usize, path: &[u8]) -> usize
    requires { at + (length path.now + 2) ≤ length out.old }
    ensures { Put at (line_rest path.now) out.old result out.new }
{
    let parted = text::put_byte(out, at, b' ');
    let named = text::put_bytes(out, parted, path);
    text::put_byte(out, named, b'\n')
}

// Puts the line of node n.
fn put_line(arena: &[u8], n: u32, out: &mut [u8], at: usize) -> usize
    requires valid_node { ValidNode arena.now n }
    requires at_in_bounds { at + 300 ≤ length out.old }
    ensures { Put at (line_of arena.now n) out.old result out.new }
{
    let end = put_front(out, at, n, view::arc(arena, n), view::depth(arena, n));
    put_rest(out, end, arena::path(arena, n))
}

// Puts the line of each node, in the order.
fn put_lines(arena: &[u8], count: u32, out: &mut [u8], start: usize) -> usize
    requires can_list { CanList arena.now out.old }
    requires count_value { (count ≡ count_in arena.now) × (start ≤ 27) }
    ensures put { Put start (lines_of arena.now) out.old result out.new }
    ensures upper_bound { result ≤ 307227 }
{
    let mut at = start;
    for i in 0..count {
        let n = arena::order_entry(arena, i);
        at = put_line(arena, n, out, at);
    }
    at
}

// Puts the whole listing.
fn put_listing(arena: &[u8], out: &mut [u8]) -> usize
    requires { CanList arena.now out.old }
    ensures put { Put 0 (listing (decode arena.now)) out.old result out.new }
    ensures upper_bound { result ≤ 307227 }
{
    let count = arena::count(arena);
    let start = put_head(out, count);
    put_lines(arena, count, out, start)
}

// Writes the listing to the front of `out`, which has 327,744 bytes, and answers how many it took.
// Refused 1 (of both), 2, 3 or 10.
pub fn write_listing(arena: &[u8], out: &mut [u8]) -> Result<u32, Refusal>
    ensures { ListingWritten arena.now out.old result out.new }
{
    if out.len() != arena::ARENA_BYTES {
        return Err(Refusal::Size);
    }
    validate::ask_node_zero(arena)?;
    if arena::ordered(arena) != 1 {
        return Err(Refusal::NotOrdered);
    }
    Ok(put_listing(arena, out) as u32)
}
