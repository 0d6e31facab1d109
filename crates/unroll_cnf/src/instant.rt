//! The words of an instant.
ghost use Rattle.std.specs.Prelude.{◌≡◌, ◌<◌, [], length, map, replicate, slice_set, option_map, IfOk, OnOk};
ghost use Rattle.op_network.specs.declared.edge.EdgeId.{EdgeId as Id};
ghost use Rattle.op_network.specs.Valid.{IsValid};
ghost use Rattle.lus_causality.specs.Causality.{IsSequence};
ghost use Rattle.bit_blast.specs.Made.{Adds, IfFull, Overfills};
ghost use Rattle.unroll_cnf.specs.Made.{AreWords, HasRoom, IsPast, Spends, table_of};
ghost use Rattle.unroll_cnf.specs.Unrolled as spec;

use crate::operator::edge_word;
use bit_blast::{BlastFault, Maker, Word};
use cov_base::{List, Memory};
use op_network::{EdgeId, Parts};
use std::alloc::Global;

/// An empty word for each edge.
fn no_words(alloc: Global, edges: usize) -> Result<List<Word>, Memory>
    ensures { IfOk result (λ words. words ≡ replicate edges []) }
{
    let mut words = List::new(alloc);
    for _edge in 0..edges {
        words.add(List::new(alloc))?;
    }
    Ok(words)
}

/// Sets the word of an edge.
fn put(words: &mut List<Word>, e: EdgeId, word: Word)
    requires { e.0 < length words.old }
    ensures { words.new ≡ slice_set words.old e.0 word }
{
    words.items_mut()[e.0 as usize] = word;
}

/// The words of an instant, made edge by edge in the order of the sequence, behind those of the
/// instant before.
pub(crate) fn instant(
    alloc: Global,
    maker: &mut Maker,
    parts: &Parts,
    order: &[EdgeId],
    before: Option<&[Word]>,
) -> Result<List<Word>, BlastFault>
    requires valid { IsValid parts.now }
    requires order { IsSequence parts.now.edges order.now }
    requires past { IsPast parts.now maker.old.vars (option_map (λ words. words.now) before) }
    requires some { 0 < maker.old.vars }
    requires room { HasRoom maker.old (length parts.now.edges) }
    ensures made { let past = option_map table_of (option_map (λ words. words.now) before.entry) in
        IfOk result (λ words. Adds maker.old maker.new
        (λ n. spec.instant parts.now past n spec.no_words order.now) (table_of words)) }
    ensures full { let past = option_map table_of (option_map (λ words. words.now) before.entry) in
        IfFull result (Overfills maker.old
        (λ n. spec.instant parts.now past n spec.no_words order.now)) }
    ensures words { IfOk result (AreWords parts.now maker.new.vars) }
    ensures spent { OnOk result (Spends maker.old maker.new (length parts.now.edges)) }
{
    let mut words = no_words(alloc, parts.edges.len())?;
    for e in order {
        let word = edge_word(alloc, maker, parts, *e, before, words.as_slice())?;
        put(&mut words, *e, word);
    }
    Ok(words)
}
