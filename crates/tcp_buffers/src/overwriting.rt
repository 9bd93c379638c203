//! Overwriting a queue's bytes, and writing past its end.

ghost use Rattle.limits.specs.Limits.{buffer_size};
ghost use Rattle.std.specs.Prelude.{◌≡◌, ℕ, ◌+◌, ◌<◌, ◌≤◌, List, ◌++◌, length, max, replicate, slice_set};
ghost use Rattle.tcp_buffers.specs.Runs.{written};

use circular_buffer::HeapCircularBuffer;

/// Writes bytes over those of a queue, from place `from` on, and past its end. A gap before them is filled with zeros.
#[tactic(auto, using(crate::proofs::Overwrites::length_written))]
pub(crate) fn overwrite(queue: &mut HeapCircularBuffer<u8>, from: usize, bytes: &[u8])
    requires fits { from + length bytes.now ≤ buffer_size }
    requires room { queue.old.capacity ≡ buffer_size }
    ensures items { queue.new.items ≡ written from bytes.now queue.old.items }
    ensures room { queue.new.capacity ≡ buffer_size }
{
    if bytes.is_empty() {
        return;
    }
    pad(queue, from);
    let over = bytes.len().min(queue.len() - from);
    set_all(queue, from, &bytes[..over]);
    append(queue, &bytes[over..]);
}

/// Fills a queue with zeros up to place `to`.
fn pad(queue: &mut HeapCircularBuffer<u8>, to: usize)
    requires fits { to ≤ buffer_size }
    requires room { queue.old.capacity ≡ buffer_size }
    ensures items { (bytes : List ℕ) → 0 < length bytes → written to bytes queue.new.items ≡ written to bytes queue.old.items }
    ensures long { to ≤ length queue.new.items }
    ensures longer { length queue.new.items ≡ max (length queue.old.items) to }
    ensures room { queue.new.capacity ≡ buffer_size }
{
    if queue.len() < to {
        pad_with(&[0; 512], queue, to);
    }
}

/// Fills a shorter queue with zeros up to place `to`, by appending these zeros as often as needed.
fn pad_with(zeros: &[u8], queue: &mut HeapCircularBuffer<u8>, to: usize)
    requires zeros { zeros.now ≡ replicate 512 0 }
    requires fits { to ≤ buffer_size }
    requires short { length queue.old.items < to }
    requires room { queue.old.capacity ≡ buffer_size }
    ensures items { (bytes : List ℕ) → 0 < length bytes → written to bytes queue.new.items ≡ written to bytes queue.old.items }
    ensures long { length queue.new.items ≡ to }
    ensures room { queue.new.capacity ≡ buffer_size }
{
    while queue.len() < to {
        let count = zeros.len().min(to - queue.len());
        append(queue, &zeros[..count]);
    }
}

/// Appends bytes that fit.
#[tactic(auto, using(std::proofs::lemmas::List::take_all))]
fn append(queue: &mut HeapCircularBuffer<u8>, bytes: &[u8])
    requires fits { length queue.old.items + length bytes.now ≤ buffer_size }
    requires room { queue.old.capacity ≡ buffer_size }
    ensures items { queue.new.items ≡ queue.old.items ++ bytes.now }
    ensures room { queue.new.capacity ≡ buffer_size }
{
    queue.fill_from_slice(bytes);
}

/// Writes bytes over those of a queue from place `from` on. A queue that wraps around in its room is written byte by byte, since moving it would cost more.
fn set_all(queue: &mut HeapCircularBuffer<u8>, from: usize, bytes: &[u8])
    requires within { from + length bytes.now ≤ length queue.old.items }
    requires fits { from + length bytes.now ≤ buffer_size }
    ensures items { queue.new.items ≡ written from bytes.now queue.old.items }
    ensures long { length queue.new.items ≡ length queue.old.items }
    ensures room { queue.new.capacity ≡ queue.old.capacity }
{
    let (_, wrapped) = queue.as_slices();
    if wrapped.is_empty() {
        set_slice(queue, from, bytes);
    } else {
        set_each(queue, from, bytes);
    }
}

/// Writes bytes over those of a queue from place `from` on, by one copy.
fn set_slice(queue: &mut HeapCircularBuffer<u8>, from: usize, bytes: &[u8])
    requires within { from + length bytes.now ≤ length queue.old.items }
    requires fits { from + length bytes.now ≤ buffer_size }
    ensures items { queue.new.items ≡ written from bytes.now queue.old.items }
    ensures long { length queue.new.items ≡ length queue.old.items }
    ensures room { queue.new.capacity ≡ queue.old.capacity }
{
    copy_over(queue.make_contiguous(), from, bytes);
}

/// Writes bytes over others from place `from` on.
fn copy_over(items: &mut [u8], from: usize, bytes: &[u8])
    requires within { from + length bytes.now ≤ length items.old }
    requires fits { from + length bytes.now ≤ buffer_size }
    ensures items { items.new ≡ written from bytes.now items.old }
    ensures long { length items.new ≡ length items.old }
{
    items[from..from + bytes.len()].copy_from_slice(bytes);
}

/// Writes bytes over those of a queue from place `from` on, byte by byte.
#[tactic(auto, using(crate::proofs::Overwrites::set_one, crate::proofs::Overwrites::length_set), unfolding(crate::specs::Runs::written))]
fn set_each(queue: &mut HeapCircularBuffer<u8>, from: usize, bytes: &[u8])
    requires within { from + length bytes.now ≤ length queue.old.items }
    requires fits { from + length bytes.now ≤ buffer_size }
    ensures items { queue.new.items ≡ written from bytes.now queue.old.items }
    ensures long { length queue.new.items ≡ length queue.old.items }
    ensures room { queue.new.capacity ≡ queue.old.capacity }
{
    let mut place = from;
    let mut rest = bytes;
    while let Some((byte, behind)) = rest.split_first() {
        set(queue, place, *byte);
        place += 1;
        rest = behind;
    }
}

/// Writes one byte over another.
fn set(queue: &mut HeapCircularBuffer<u8>, place: usize, byte: u8)
    requires { place < length queue.old.items }
    ensures items { queue.new.items ≡ slice_set queue.old.items place byte }
    ensures room { queue.new.capacity ≡ queue.old.capacity }
{
    if let Some(old) = queue.get_mut(place) {
        *old = byte;
    }
}
