// The line that lists an order.
use calls_text::{Output, put_refusal};
use std::io::Write;

// `list`: the order.
pub(crate) fn list_line<W: Write>(arena: &[u8], out: &mut Output<W>) {
    let mut order = io::buffer();
    let read = prim_graph::strength_order(arena, &mut order);
    match read {
        Ok(count) => put_entries(&order, count, out),
        Err(refusal) => put_refusal(out, refusal),
    }
}

// The first `count` numbers of `order`, 4 bytes each, parted by spaces; fewer where it has fewer.
fn put_entries<W: Write>(order: &[u8], count: u32, out: &mut Output<W>) {
    let (entries, _) = order.as_chunks::<4>();
    for (n, entry) in entries.iter().take(count as usize).enumerate() {
        out.put_between(n, b" ");
        out.put_number(u32::from_be_bytes(*entry) as u64);
    }
}
