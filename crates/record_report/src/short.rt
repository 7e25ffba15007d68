//! A short line of a record: code plus 128 in bits 0 to 7, the number of words that follow, up to three, in bits 8 to
//! 15, a small argument in bits 16 to 63.

/// The eight words of the line, by its first word and those that follow. The small argument stands first, but after the
/// address of an access; a system operation has its five arguments in the bytes of the small one.
pub fn words(first: u64, a: u64, b: u64, c: u64) -> [u64; 8] {
    let small = first >> 16;
    match first % 128 {
        4 => [4, a, small, 0, 0, 0, 0, 0],
        5 => [5, a, small, b, 0, 0, 0, 0],
        6 => [6, a, 0, 0, 0, 0, 0, 0],
        7 => {
            let [op1, crn, crm, op2, rt, ..] = small.to_le_bytes().map(u64::from);
            [7, op1, crn, crm, op2, rt, 0, 0]
        }
        41 => [41, a, 0, 0, 0, 0, 0, 0],
        code => [code, small, a, b, c, 0, 0, 0],
    }
}
