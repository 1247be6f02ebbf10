// The calls that put a path into a lent buffer of 255 bytes and answer its length: the path of node
// n, that at its introduction, and that of the site that introduced it. None has a `requires`: each
// puts questions 1 to 4 and is refused by the first whose answer is no, and then every byte of the
// buffer is as it was. Past the path it is so too.
// The paths are model/specs/Graph.antt's; what a call leaves is `PutPath` of
// model/specs/ArenaCalls.antt.
ghost use Rattle.std.specs.Prelude.{◌≡◌, ◌≤◌, length};
ghost use Rattle.model.specs.Answers.{answer_refusal, number_value};
ghost use Rattle.model.specs.Arena.{decode};
ghost use Rattle.model.specs.ArenaCalls.{ask_path, PutPath};
ghost use Rattle.model.specs.Bytes.{stored};
ghost use Rattle.model.specs.Calls.{reads_node};
ghost use Rattle.model.specs.Graph.{node_at, path_at_introduction, intro_path};
ghost use Rattle.model.specs.Refusals.{refusal};

use model::Refusal;

// Questions 1 to 4, the first of the buffer too.
fn ask(arena: &[u8], n: u32, buffer: &[u8]) -> Result<(), Refusal>
    ensures { answer_refusal result ≡ refusal
        (ask_path arena.now buffer.now (reads_node (decode arena.now) n)) }
{
    if buffer.len() != arena::PATH_BYTES {
        return Err(Refusal::Size);
    }
    validate::ask_node(arena, n)
}

// Puts the path at the front of the buffer.
fn put(path: &[u8], buffer: &mut [u8]) -> Result<u32, Refusal>
    requires { (length path.now ≤ 255) × (length buffer.old ≡ 255) }
    ensures result_value { (answer_refusal result ≡ 0) × (number_value result ≡ length path.now) }
    ensures buffer_after { buffer.new ≡ stored 0 path.now buffer.old }
{
    big_endian::write_bytes(buffer, 0, path);
    Ok(path.len() as u32)
}

// The path of node n.
pub fn path(arena: &[u8], n: u32, buffer: &mut [u8]) -> Result<u32, Refusal>
    ensures { PutPath
        (ask_path arena.now buffer.old (reads_node (decode arena.now) n))
        (node_at (decode arena.now).nodes n).path buffer.old result buffer.new }
{
    ask(arena, n, buffer)?;
    put(arena::path(arena, n), buffer)
}

// The path of node n at its introduction: taken back by its depth below introduction.
pub fn path_at_introduction(arena: &[u8], n: u32, buffer: &mut [u8]) -> Result<u32, Refusal>
    ensures { PutPath
        (ask_path arena.now buffer.old (reads_node (decode arena.now) n))
        (path_at_introduction (decode arena.now).nodes n) buffer.old result buffer.new }
{
    ask(arena, n, buffer)?;
    let depth = view::depth_below(arena, n);
    put(
        path::path_at_intro_depth(arena::path(arena, n), depth),
        buffer,
    )
}

// The path of the site that introduced node n: its parent's, taken back by that depth; `/` of node
// 0, which has no parent.
pub fn intro_path(arena: &[u8], n: u32, buffer: &mut [u8]) -> Result<u32, Refusal>
    ensures { PutPath
        (ask_path arena.now buffer.old (reads_node (decode arena.now) n))
        (intro_path (decode arena.now).nodes n) buffer.old result buffer.new }
{
    ask(arena, n, buffer)?;
    if n == 0 {
        return put(b"/", buffer);
    }
    let depth = view::depth_below(arena, n);
    let parent = view::parent(arena, n);
    put(
        path::path_at_intro_depth(arena::path(arena, parent), depth),
        buffer,
    )
}
