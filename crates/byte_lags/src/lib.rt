//! Sums of products of signed numbers at many lags, from streams of biased bytes. It stands on `byte_sums` for the sums of products of
//! the bytes. `add_products` takes the biases off, by sums of bytes that slide with the lag, and adds what is left to each lag's
//! cell, by one weight for the real part and one for the imaginary part: a product of two real streams is one call, and a
//! product of two complex ones is three (Gauss): of both components with the real one at (1, 1), of the real one with both at
//! (0, -1), of the imaginary one with the difference at (-1, 0). The sums are exact, and no call takes memory.
#![tactic(auto)]

mod product;

pub use product::{Stream, Weights, add_products};
