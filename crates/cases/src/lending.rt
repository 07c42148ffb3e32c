// A buffer of so many bytes, each 165.

// The first bytes of a buffer, or all where there are fewer.
pub fn lent(buffer: &mut [u8], room: usize) -> &mut [u8] {
    let n = room.min(buffer.len());
    let lent = &mut buffer[..n];
    lent.fill(165);
    lent
}
