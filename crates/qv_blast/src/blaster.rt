//! Clause lists of formulas.

ghost use Rattle.std.specs.Prelude.{◌≡◌, ◌+◌, ◌≤◌, ◌<◌, ◌^◌, ◌++◌, ◌∷◌, [], if◌then◌else◌, All};
ghost use Rattle.std.specs.Prelude.{Err, IfOk, List, OnErr, OnOk, drop, option_map, length, map};
ghost use Rattle.std.specs.Prelude.{slice_index_or, take};
ghost use Rattle.qv_words.specs.Tree.{Tree, IsQuantifierFree};
ghost use Rattle.qv_words.specs.Gate.{no, yes};
ghost use Rattle.qv_words.specs.Routine.{bits_of_number};
ghost use Rattle.qv_words.specs.Clauses.{with_each_node, with_formula, with_node};
ghost use Rattle.qv_words.specs.Sort.{width_of};
ghost use Rattle.qv_words.specs.Word.{word_sort, word_value};
ghost use Rattle.qv_cnf.specs.Listing.{clauses_of};
ghost use Rattle.qv_cnf.specs.Literal.{Literal};
ghost use Rattle.std.specs.Option.{option_copied};
ghost use Rattle.qv_circuits.specs.Adding.{lit_of, lits_of};
ghost use Rattle.qv_store.specs.Nodes.{children, tree_at};
ghost use Rattle.qv_store.specs.Stores.{AreShared};
ghost use Rattle.qv_store.specs.Walks.{named, IsBehind, IsEarlier, IsFound};
ghost use Rattle.qv_blast.specs.Blasters.{blasting_of, clauses_in, from_one, AreFound, IsGrown};
ghost use Rattle.qv_blast.specs.Blasters.{IsReady, IsUnbound, IsUnit, MakesNode, MayHaveBits};
ghost use Rattle.qv_blast.specs.Blasters.{WantsMore};

use crate::faults::BlastFault;
use crate::lists::Lists;
use qv_cnf::{ClauseList, Lit, Packed};
use qv_store::{Id, Node, Store, Walk};
use qv_words::Word;
use std::alloc::{AllocError, Global};

/// The ids of clauses that came: from the first, up to the end, which isn't among them.
#[derive(Clone, Copy, Debug, PartialEq, Eq)]
pub struct Added {
    pub first: u64,
    pub end: u64,
}

// The bits of a value.
fn bits_of_word(alloc: Global, word: Word) -> Result<Vec<Lit>, AllocError>
    ensures { IfOk result (λ bits. lits_of bits.items ≡
        bits_of_number (width_of (word_sort word)) (word_value word)) }
{
    let width = word.sort().width() as usize;
    let mut value = word.value();
    let mut bits = Vec::with_capacity(alloc, width)?;
    'bits: for _i in 0..width {
        bits.push(literal_of(value % 2 == 1))?;
        value /= 2;
    }
    Ok(bits)
}

// The literal that is always true, or its negation.
fn literal_of(truth: bool) -> Lit
    ensures { lit_of result ≡ (if truth then yes else no) }
{
    if truth {
        Lit::default()
    } else {
        Lit::default().negated()
    }
}

// The bits of children, in order.
fn bits_of_kids<'a>(
    alloc: Global,
    terms: &Walk,
    bits: &'a Packed,
    kids: &[Id],
) -> Result<Vec<&'a [Lit]>, AllocError>
    requires { All (IsEarlier terms.now (length bits.now)) kids.now }
    ensures { IfOk result (λ args. AreFound terms.now bits.now kids.now
        (map (λ v. v.now) args.items)) }
{
    let mut args = Vec::with_capacity(alloc, kids.len())?;
    'kids: for kid in kids {
        args.push(found(terms, bits, *kid))?;
    }
    Ok(args)
}

// The bits of a term that is among the first.
fn found<'a>(terms: &Walk, bits: &'a Packed, id: Id) -> &'a [Lit]
    requires { IsEarlier terms.now (length bits.now) id }
    ensures { IsFound terms.now bits.now id result.now }
{
    bits.get(terms.position(id))
}

// The bits of a node over those of its children.
fn bits_of_node(
    lists: &mut Lists,
    terms: &Walk,
    bits: &Packed,
    node: &Node,
) -> Result<Vec<Lit>, BlastFault>
    requires earlier { All (IsEarlier terms.now (length bits.now)) (children node.now) }
    requires unbound { IsUnbound node.now }
    requires may { (args : List (List Literal)) →
        AreFound terms.now bits.now (children node.now) args →
        MayHaveBits node.now args }
    ensures ok { IfOk result (λ made. MakesNode terms.now bits.now
        node.now lists.old (lits_of made.items) lists.new) }
    ensures grown { IsGrown lists.old lists.new }
    ensures err { OnErr result (lists.new ≡ lists.old) }
    ensures over { result ≡ Err BlastFault.TooManyVariables →
        WantsMore terms.now bits.now node.now lists.old }
{
    match node {
        Node::Const { sort, .. } => lists.variables(*sort),
        Node::Var { sort, .. } => lists.variables(*sort),
        Node::Lit { word } => Ok(bits_of_word(lists.alloc, *word)?),
        Node::App { op, kids } => {
            let args = bits_of_kids(lists.alloc, terms, bits, kids.as_slice())?;
            let made = lists.circuit(*op, &args)?;
            Ok(made)
        }
        Node::All { .. } => unreachable!(),
        Node::Ex { .. } => unreachable!(),
    }
}

// The next term of the walk gets its bits.
fn blast_next(
    lists: &mut Lists,
    terms: &Walk,
    bits: &mut Packed,
    store: &Store,
) -> Result<(), BlastFault>
    requires ready { IsReady store.now terms.now bits.old lists.old }
    requires more { length bits.old < length terms.now }
    ensures steps { OnOk result (
        blasting_of store.now terms.now bits.new lists.new
        ≡ with_node (blasting_of store.now terms.now bits.old lists.old)
        (tree_at store.now (slice_index_or terms.now (length bits.old) 0))) }
    ensures ready { OnOk result (
        IsReady store.now terms.now bits.new lists.new) }
    ensures one { OnOk result (length bits.new ≡ length bits.old + 1) }
    ensures front { take (length bits.old) bits.new ≡ bits.old }
    ensures grown { IsGrown lists.old lists.new }
    ensures over { result ≡ Err BlastFault.TooManyVariables → lists.old.limit + 1 < (with_node
        (blasting_of store.now terms.now bits.old lists.old)
        (tree_at store.now (slice_index_or terms.now (length bits.old) 0))).next }
{
    let id = terms.ids()[bits.len()];
    let made = bits_of_node(lists, terms, bits, store.node(id))?;
    bits.push(&made)?;
    Ok(())
}

// The terms of the walk that have no bits yet get theirs.
fn blast_terms(
    lists: &mut Lists,
    terms: &Walk,
    bits: &mut Packed,
    store: &Store,
) -> Result<(), BlastFault>
    requires { IsReady store.now terms.now bits.old lists.old }
    ensures steps { OnOk result (
        blasting_of store.now terms.now bits.new lists.new
        ≡ with_each_node
        (blasting_of store.now terms.now bits.old lists.old)
        (drop (length bits.old) (named store.now terms.now))) }
    ensures ready { OnOk result (
        IsReady store.now terms.now bits.new lists.new) }
    ensures all { OnOk result (length bits.new ≡ length terms.now) }
    ensures front { take (length bits.old) bits.new ≡ bits.old }
    ensures grown { IsGrown lists.old lists.new }
    ensures over { result ≡ Err BlastFault.TooManyVariables → lists.old.limit + 1 < (with_each_node
        (blasting_of store.now terms.now bits.old lists.old)
        (drop (length bits.old) (named store.now terms.now))).next }
{
    'terms: while bits.len() < terms.len() {
        blast_next(lists, terms, bits, store)?;
    }
    Ok(())
}

// The unit clause of a formula's bit.
fn add_unit(lists: &mut Lists, terms: &Walk, bits: &Packed, formula: Id) -> Result<(), BlastFault>
    requires { IsEarlier terms.now (length bits.now) formula }
    ensures unit { OnOk result (IsUnit terms.now bits.now formula
        lists.old lists.new) }
    ensures grown { IsGrown lists.old lists.new }
    ensures memory { OnErr result (result ≡ Err BlastFault.NoMemory) }
{
    let bit = found(terms, bits, formula);
    lists.clause(bit)?;
    Ok(())
}

// One more formula: its new terms and its unit clause.
fn add_formula(
    lists: &mut Lists,
    terms: &mut Walk,
    bits: &mut Packed,
    store: &Store,
    formula: Id,
) -> Result<(), BlastFault>
    requires id { formula < length store.now }
    requires free { IsQuantifierFree (tree_at store.now formula) }
    requires ready { IsReady store.now terms.old bits.old lists.old }
    requires all { length bits.old ≡ length terms.old }
    ensures formula { OnOk result (
        blasting_of store.now terms.new bits.new lists.new
        ≡ with_formula
        (blasting_of store.now terms.old bits.old lists.old)
        (tree_at store.now formula)) }
    ensures ready { OnOk result (
        IsReady store.now terms.new bits.new lists.new) }
    ensures all { OnOk result (length bits.new ≡ length terms.new) }
    ensures front { take (length bits.old) bits.new ≡ bits.old }
    ensures behind { IsBehind terms.old terms.new }
    ensures grown { IsGrown lists.old lists.new }
    ensures over { result ≡ Err BlastFault.TooManyVariables → lists.old.limit + 1 < (with_formula
        (blasting_of store.now terms.old bits.old lists.old)
        (tree_at store.now formula)).next }
{
    terms.visit(store, formula)?;
    blast_terms(lists, terms, bits, store)?;
    add_unit(lists, terms, bits, formula)?;
    Ok(())
}

/// The clause list of formulas in one store, and the bits of their terms.
#[derive(Drop)]
pub struct Blaster {
    lists: Lists,
    // The terms that have bits, each once, children first.
    terms: Walk,
    // Of each of them, in order.
    bits: Packed,
}

impl Blaster {
    ghost use Rattle.qv_words.specs.Clauses.{first_blasting, bits_of, cnf};
    ghost use Rattle.qv_blast.specs.States.{blasting_at, limit_of, list_of, HasFormulas, IsAdded};
    ghost use Rattle.qv_blast.specs.States.{IsBlaster};
    ghost use Rattle.qv_cnf_bridge_laws.specs.Bridge.{clauses_for};
    ghost use Rattle.qv_circuits_laws.specs.ClauseLaws.{blasted};

    /// No formulas, and the greatest variable that may be taken.
    pub fn new(alloc: Global, limit: u32) -> Result<Blaster, AllocError>
        requires some { 1 ≤ limit }
        requires most { limit ≤ 2 ^ 30 }
        ensures first { IfOk result (λ b. (trees : List Tree) →
            blasting_at trees b ≡ first_blasting) }
        ensures blaster { IfOk result (λ b. (trees : List Tree) → AreShared trees →
            IsBlaster trees b) }
        ensures none { IfOk result (λ b. (trees : List Tree) → AreShared trees →
            HasFormulas trees [] b) }
        ensures limit { IfOk result (λ b. limit_of b ≡ limit) }
    {
        let lists = Lists::new(alloc, limit)?;
        Ok(Blaster {
            lists,
            terms: Walk::new(alloc),
            bits: Packed::new(alloc),
        })
    }

    /// Adds a formula: the clauses of its terms that are new, and the unit clause of its bit. After
    /// a fault the blaster is as before.
    pub fn assert(&mut self, store: &Store, formula: Id) -> Result<Added, BlastFault>
        requires id { formula < length store.now }
        requires free { IsQuantifierFree (tree_at store.now formula) }
        requires blaster { IsBlaster store.now self.old }
        ensures formula { OnOk result (blasting_at store.now self.new
            ≡ with_formula (blasting_at store.now self.old) (tree_at store.now formula)) }
        ensures blaster { IsBlaster store.now self.new }
        ensures err { OnErr result (blasting_at store.now self.new
            ≡ blasting_at store.now self.old) }

        // It has the clause list of one formula more, or of those that it had.
        ensures more { OnOk result ((formulas : List Tree) →
            HasFormulas store.now formulas self.old →
            HasFormulas store.now (formulas ++ tree_at store.now formula ∷ []) self.new) }
        ensures stays { OnErr result ((formulas : List Tree) →
            HasFormulas store.now formulas self.old → HasFormulas store.now formulas self.new) }

        // The ids of the clauses that came.
        ensures added { IfOk result (λ added. IsAdded added.first added.end
            (blasting_at store.now self.old) (blasting_at store.now self.new)) }

        // No variable over the limit is taken, and that fault comes only where one is wanted.
        ensures limit { limit_of self.new ≡ limit_of self.old }
        ensures within { OnOk result ((blasting_at store.now self.new).next
            ≤ limit_of self.new + 1) }
        ensures over { result ≡ Err BlastFault.TooManyVariables → limit_of self.old + 1 <
            (with_formula (blasting_at store.now self.old) (tree_at store.now formula)).next }
    {
        let mark = self.lists.mark();
        let count = self.bits.len();
        match add_formula(
            &mut self.lists,
            &mut self.terms,
            &mut self.bits,
            store,
            formula,
        ) {
            Ok(()) => Ok(Added {
                first: mark.id,
                end: self.lists.mark().id,
            }),
            Err(fault) => {
                self.lists.back_to(mark);
                self.terms.truncate(count);
                self.bits.truncate(count);
                Err(fault)
            }
        }
    }

    /// The clauses, under ids from 1 on.
    pub fn clauses(&self) -> &ClauseList
        ensures list { result.now ≡ list_of self.now }

        // They are those of the definition, under ids from 1 on.
        ensures ids { result.now ≡ from_one (clauses_of result.now.live) }
        ensures clauses { (trees : List Tree) →
            clauses_in result.now ≡ (blasting_at trees self.now).clauses }
        ensures cnf { (trees formulas : List Tree) → HasFormulas trees formulas self.now →
            result.now ≡ from_one (clauses_for (cnf formulas)) }
    {
        self.lists.list()
    }

    /// The bits of a term, low bit first, if it stands in a formula so far.
    pub fn bits(&self, store: &Store, id: Id) -> Option<&[Lit]>
        requires id { id < length store.now }
        requires blaster { IsBlaster store.now self.now }
        ensures bits { option_map lits_of (option_copied result)
            ≡ bits_of (blasting_at store.now self.now).known (tree_at store.now id) }
        ensures blasted { (formulas : List Tree) → HasFormulas store.now formulas self.now →
            option_map lits_of (option_copied result)
            ≡ bits_of (blasted formulas) (tree_at store.now id) }
    {
        let known = id.number() < store.len();
        prove!(known);
        if !self.terms.contains(id) {
            return None;
        }
        Some(found(&self.terms, &self.bits, id))
    }
}
