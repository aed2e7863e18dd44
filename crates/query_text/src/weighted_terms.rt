// Terms with their weights.
ghost use Rattle.std.specs.Prelude.{◌≡◌, ◌≤◌, [], length, map, IfOk, IsTrue};
ghost use Rattle.std.specs.List.{All};
ghost use Rattle.query_text.specs.TermSet.{set_of, most_query_terms};
ghost use Rattle.query_text.specs.Weights.{is_weight, weight_of};

use crate::query::{NumberList, Terms};
use std::alloc::{AllocError, Global};
use std::marker::Model;

/// Distinct terms, rising, each with its weight. A weight is at least 1, and the weights sum to
/// less than 2^26.
#[derive(Drop)]
pub struct Weighted {
    terms: Terms,
    weights: NumberList,
}

impl Model for Weighted {
    ghost use Rattle.std.specs.Prelude.{List, ℕ, zip};

    ghost Value = { List (ℕ × ℕ) };

    ghost view = { λ w. zip w.terms w.weights.items };

    ghost use Rattle.std.specs.Prelude.{◌≡◌, length};
    ghost use Rattle.query_text.specs.Weights.{AreWeights};

    ghost invariant = { λ w. (length w.weights.items ≡ length w.terms)
        × AreWeights w.weights.items };
}

impl Weighted {
    ghost use Rattle.std.specs.Prelude.{◌≡◌, ◌≤◌, length, map, IfOk, IsTrue};
    ghost use Rattle.std.specs.List.{All};
    ghost use Rattle.std.specs.List.Sorted.{IsStrictlyIncreasing};
    ghost use Rattle.query_text.specs.TermSet.{most_query_terms};
    ghost use Rattle.query_text.specs.Weights.{is_weight, weighted_set, AreWeights};

    // The distinct terms of some fields, each with the sum of the weights of its fields.
    pub(crate) fn from_fields(alloc: Global, fields: &[(u32, u32)]) -> Result<Weighted, AllocError>
        requires few { length fields.now ≤ most_query_terms }
        requires weights { All (λ f. IsTrue (is_weight f.1)) fields.now }
        ensures { IfOk result (λ w. w ≡ weighted_set fields.now) }
    {
        let terms = distinct_terms(alloc, fields)?;
        let weights = summed_weights(alloc, terms.as_slice(), fields)?;
        Ok(Weighted { terms, weights })
    }

    pub fn terms(&self) -> &[u32]
        ensures value { result.now ≡ map (λ t. t.0) self.now }
        ensures rising { IsStrictlyIncreasing result.now }
    {
        self.terms.as_slice()
    }

    /// The weights of the terms, in their order.
    pub fn weights(&self) -> &[u32]
        ensures value { result.now ≡ map (λ t. t.1) self.now }
        ensures weights { AreWeights result.now }
    {
        self.weights.as_slice()
    }
}

// The distinct terms of some fields.
fn distinct_terms(alloc: Global, fields: &[(u32, u32)]) -> Result<Terms, AllocError>
    ensures { IfOk result (λ t. t ≡ set_of (map (λ f. f.0) fields.now)) }
{
    let mut numbers = NumberList::new(alloc);
    for (term, _) in fields {
        numbers.push(*term)?;
    }
    Ok(Terms::from_numbers(numbers))
}

// The weights of the distinct terms of some fields, in their order.
fn summed_weights(
    alloc: Global,
    terms: &[u32],
    fields: &[(u32, u32)],
) -> Result<NumberList, AllocError>
    requires terms { terms.now ≡ set_of (map (λ f. f.0) fields.now) }
    requires few { length fields.now ≤ most_query_terms }
    requires weights { All (λ f. IsTrue (is_weight f.1)) fields.now }
    ensures { IfOk result (λ ws. ws.items ≡ map (weight_of fields.now) terms.now) }
{
    let mut weights = NumberList::from_elem(alloc, 0, terms.len())?;
    add_weights(weights.as_mut_slice(), terms, fields);
    Ok(weights)
}

// Adds the weight of each field to that of its term.
fn add_weights(weights: &mut [u32], terms: &[u32], fields: &[(u32, u32)])
    requires start { weights.old ≡ map (weight_of []) terms.now }
    requires terms { terms.now ≡ set_of (map (λ f. f.0) fields.now) }
    requires few { length fields.now ≤ most_query_terms }
    requires weights { All (λ f. IsTrue (is_weight f.1)) fields.now }
    ensures { weights.new ≡ map (weight_of fields.now) terms.now }
{
    for (term, weight) in fields {
        if let Ok(at) = terms.binary_search(term) {
            weights[at] += *weight;
        }
    }
}
