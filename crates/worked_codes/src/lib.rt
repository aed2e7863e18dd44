//! Worked examples and small universes of the bits of parts: fields and ones of words, numbers in
//! Elias-Fano form, bitmaps with counts, and the codec over the three forms.
#![tactic(auto)]

#[cfg(test)]
mod bit_lists;
#[cfg(test)]
mod bitmaps;
#[cfg(test)]
mod codecs;
#[cfg(test)]
mod relative;
#[cfg(test)]
mod rising_numbers;
