//! How often the page names a key that is not outdated.

/// The share of the keys that are not outdated which the page is expected to name, by the number of keys
/// that were put into it: (1 - e^(-kn/m))^k, where m is its number of bits and k the positions of a key
/// (Bloom, 1970).
pub(crate) fn false_positives(keys: u64, log2_bits: u8, hashes: u8) -> f64 {
    let keys = f64::from(u32::try_from(keys).unwrap_or(u32::MAX));
    let mut bits: f64 = 1.0;
    for _n in 0..log2_bits {
        bits *= 2.0;
    }
    let filled = 1.0 - (-(f64::from(hashes) * keys / bits)).exp();
    filled.powi(i32::from(hashes))
}
