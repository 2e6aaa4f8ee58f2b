//! The formulas that a section stands for.

ghost use Rattle.std.specs.Prelude.{◌≡◌, ◌<◌, ◌≤◌, ℕ, List, All, IfOk, IfSome, OnOk, length};
ghost use Rattle.std.specs.Prelude.{is_none, is_some, slice_get, slice_set, vec_len};
ghost use Rattle.qv_words.specs.declared.sort.Sort.TheVariants.{Bool as BoolSort};
ghost use Rattle.qv_words.specs.Tree.{IsQuantifierFree};
ghost use Rattle.qv_words.specs.Prenex.{negation};
ghost use Rattle.qv_words.specs.Replacement.{replaced, HasTheirSorts};
ghost use Rattle.qv_words.specs.Skolem.{goal_of, IsSkolemTerm, IsTermOf};
ghost use Rattle.qv_words.specs.Expansion.{leaves_of, IsExpansion, line_numbered, path_of};
ghost use Rattle.qv_store.specs.Nodes.{tree_at};
ghost use Rattle.qv_store.specs.Stores.{Grows, StandsAt};
ghost use Rattle.qv_store.specs.Walks.{named};
ghost use Rattle.qv_store.specs.Problems.{problem_in, IsPosedIn};
ghost use Rattle.qv_store.specs.Replacing.{put_by_level, term_of_level, AreTermsOf};
ghost use Rattle.qv_cert.specs.Faults.{lacks_term};
ghost use Rattle.qv_cert.specs.Listed.{grown_of};
ghost use Rattle.qv_cert_nodes.specs.Lists.{listed_in, depth_in, IsListed};
ghost use Rattle.qv_cert_nodes.specs.Putting.{term_given, NothingPut, lacks_in, IsPath};

use crate::listed::{Listed, Term};
use qv_store::{Id, NoMemory, Node, Problem, Quant, Store};
use qv_words::Op;
use smallvec::SmallVec;
use std::alloc::Global;

/// The formula of a sat section: the negation of the matrix with each place's term put in. There is
/// none where an existential place has no term. Also where memory runs out the store keeps what was
/// put.
pub fn goal_of(
    alloc: Global,
    listed: &Listed,
    store: &mut Store,
    problem: &Problem,
) -> Result<Option<Id>, NoMemory>
    requires kept { IsListed store.old (problem_in store.old problem.now) listed.now }
    requires posed { IsPosedIn store.old problem.now }
    requires terms { All (IsSkolemTerm (problem_in store.old problem.now))
        (listed_in store.old listed.now).terms }
    ensures missing { IfOk result (λ found. is_none found
        ≡ lacks_term (problem_in store.old problem.now) (listed_in store.old listed.now)) }
    ensures goal { IfOk result (λ found. IfSome found (λ id. StandsAt store.new id
        (goal_of (problem_in store.old problem.now) (listed_in store.old listed.now).terms))) }
    ensures free { IfOk result (λ found. IfSome found (λ id.
        IsQuantifierFree (tree_at store.new id))) }
    ensures grows { Grows store.old store.new }
{
    let terms = terms_by_place(alloc, problem.prefix.len(), listed.terms())?;
    let _nodes = store.len();
    if lacks_term(problem, &terms) {
        return Ok(None);
    }
    let matrix = store.put_in(problem.matrix, &terms)?;
    let goal = put_negation(alloc, store, matrix)?;
    Ok(Some(goal))
}

// Of each of so many places, the term that it is given, if any.
fn terms_by_place(alloc: Global, places: usize, terms: &[Term]) -> Result<Vec<Option<Id>>, NoMemory>
    requires { All (λ t. t.place < places) terms.now }
    ensures { IfOk result (λ put. (j : ℕ) →
        term_of_level put.items j ≡ term_given terms.now j) }
{
    let mut put = no_terms(alloc, places)?;
    let mut left = terms.len();
    'terms: while left > 0 {
        left -= 1;
        put_term(&mut put, &terms[left]);
    }
    Ok(put)
}

// Puts a term in for its place.
fn put_term(put: &mut Vec<Option<Id>>, term: &Term)
    requires { term.now.place < length put.old.items }
    ensures { put.new.items ≡ slice_set put.old.items term.now.place (Some term.now.id) }
{
    put[term.place as usize] = Some(term.id);
}

// No term for any of so many places.
fn no_terms(alloc: Global, places: usize) -> Result<Vec<Option<Id>>, NoMemory>
    ensures many { IfOk result (λ put. length put.items ≡ places) }
    ensures none { IfOk result (λ put. NothingPut put.items) }
{
    let mut none = Vec::new(alloc);
    'places: for _count in 0..places {
        none.push(None)?;
    }
    Ok(none)
}

// Whether an existential place has no term.
fn lacks_term(problem: &Problem, terms: &[Option<Id>]) -> bool
    ensures { result ≡ lacks_in terms.now 0 problem.now.prefix.items }
{
    'places: for (place, found) in problem.prefix.iter().enumerate() {
        if found.quant == Quant::Exists && !has_term(terms, place) {
            return true;
        }
    }
    false
}

// Whether a place has a term.
fn has_term(terms: &[Option<Id>], place: usize) -> bool
    ensures { result ≡ is_some (term_of_level terms.now place) }
{
    match terms.get(place) {
        Some(held) => held.is_some(),
        None => false,
    }
}

// The negation of a formula.
fn put_negation(alloc: Global, store: &mut Store, formula: Id) -> Result<Id, NoMemory>
    requires id { formula < length store.old }
    requires formula { IsTermOf (tree_at store.old formula) BoolSort }
    ensures id { IfOk result (λ id. StandsAt store.new id
        (negation (tree_at store.old formula))) }
    ensures grows { Grows store.old store.new }
{
    let kids = SmallVec::from_slice(alloc, &[formula])?;
    store.put(Node::App { op: Op::Not, kids })
}

/// The formulas of an unsat section: the matrix at each leaf, in the order of the lines, with what
/// stands on its path put in. Also where memory runs out the store keeps what was put.
pub fn leaves_of(
    alloc: Global,
    listed: &Listed,
    store: &mut Store,
    problem: &Problem,
) -> Result<Vec<Id>, NoMemory>
    requires kept { IsListed store.old (problem_in store.old problem.now) listed.now }
    requires posed { IsPosedIn store.old problem.now }
    requires lines { IsExpansion (problem_in store.old problem.now)
        (listed_in store.old listed.now).lines }
    ensures leaves { IfOk result (λ ids. named store.new ids.items
        ≡ leaves_of (problem_in store.old problem.now) (listed_in store.old listed.now).lines) }
    ensures below { IfOk result (λ ids. All (λ id. id < length store.new) ids.items) }
    ensures free { IfOk result (λ ids.
        All (λ id. IsQuantifierFree (tree_at store.new id)) ids.items) }
    ensures grows { Grows store.old store.new }
{
    let mut leaves = Vec::new(alloc);
    'lines: for line in 0..listed.branches().len() as u64 + 1 {
        if listed.depth(line) == problem.prefix.len() as u64 {
            let leaf = put_leaf(alloc, listed, store, problem, line)?;
            leaves.push(leaf)?;
        }
    }
    Ok(leaves)
}

// The matrix at a leaf.
fn put_leaf(
    alloc: Global,
    listed: &Listed,
    store: &mut Store,
    problem: &Problem,
    line: u64,
) -> Result<Id, NoMemory>
    requires kept { IsListed store.old (problem_in store.old problem.now) listed.now }
    requires posed { IsPosedIn store.old problem.now }
    requires lines { IsExpansion (problem_in store.old problem.now)
        (listed_in store.old listed.now).lines }
    requires line { line ≤ length listed.now.branches.items }
    requires leaf { depth_in listed.now line ≡ vec_len problem.now.prefix }
    ensures leaf { IfOk result (λ id. StandsAt store.new id (replaced
        (slice_get (path_of (line_numbered (grown_of (problem_in store.old problem.now)
        (listed_in store.old listed.now)) line))) (tree_at store.old problem.now.matrix))) }
    ensures grows { Grows store.old store.new }
{
    let path = path_to(alloc, listed, store, problem, line)?;
    store.put_in(problem.matrix, &path)
}

// What stands on the path of a line, by place.
fn path_to(
    alloc: Global,
    listed: &Listed,
    store: &Store,
    problem: &Problem,
    line: u64,
) -> Result<Vec<Option<Id>>, NoMemory>
    requires kept { IsListed store.now (problem_in store.now problem.now) listed.now }
    requires line { line ≤ length listed.now.branches.items }
    ensures { IfOk result (λ path. IsPath store.now path.items (path_of (line_numbered
        (grown_of (problem_in store.now problem.now) (listed_in store.now listed.now)) line))) }
{
    let _nodes = store.len();
    let _matrix = problem.matrix;
    let branches = listed.branches();
    let mut path = Vec::new(alloc);
    let mut at = line;
    'up: while at > 0 {
        let branch = branches[at as usize - 1];
        path.push(Some(branch.id))?;
        at = branch.parent;
    }
    path.reverse();
    Ok(path)
}
