//! The words that are reachable through edges inside a section.

ghost use Rattle.std.specs.Prelude.{◌≡◌, ℕ, ◌+◌, ◌*◌, ◌<◌, ◌≤◌, ◌⊎◌, length};
ghost use Rattle.std.specs.Prelude.{OnOk, IfOk, IfSome, Some, vec_len, false, []};
ghost use Rattle.region_tree.specs.Graph.{Reachable};
ghost use Rattle.region_tree.specs.Search.{IsVisited, IsGathered, IsMet};
ghost use Rattle.region_tree.specs.Search.{IsClosed, address, is_met, unmet_count};
ghost use Rattle.region_tree.specs.Tree.{IsDraft, graph};

use crate::draft::Draft;
use std::alloc::{AllocError, Global};

/// The visited words, and those whose edges haven't been followed yet.
#[derive(Drop)]
struct Frontier {
    met: Vec<bool>,
    todo: Vec<usize>,
}

impl Frontier {
    /// No word is visited.
    fn new(alloc: Global, count: usize) -> Result<Frontier, AllocError>
        ensures { IfOk result (λ f. (length f.met.items ≡ count)
            × ((k : ℕ) → is_met f.met.items k ≡ false) × (f.todo.items ≡ [])) }
    {
        let met = vec![in alloc; false; count]?;
        Ok(Frontier {
            met,
            todo: Vec::new(alloc),
        })
    }

    /// Meets the word at an index, if there is one.
    fn visit(&mut self, index: Option<usize>) -> Result<(), AllocError>
        requires { IfSome index (λ k. k < length self.old.met.items) }
        ensures { OnOk result (IsVisited index self.old.met.items self.new.met.items
            self.old.todo.items self.new.todo.items) }
    {
        let Some(index) = index else {
            return Ok(());
        };
        if self.met[index] {
            return Ok(());
        }
        self.todo.push(index)?;
        self.met[index] = true;
        Ok(())
    }

    /// Visits the targets of the edges of the word at an index.
    fn follow(&mut self, draft: &Draft, index: usize) -> Result<(), AllocError>
        requires rules { IsDraft draft.now }
        requires within { index < length draft.now.words }
        requires reached { Reachable (graph draft.now) (address draft.now index) }
        requires gathered { IsGathered draft.now (λ k. index ≡ k) self.old.met.items
            self.old.todo.items }
        ensures gathered { OnOk result
            (IsGathered draft.now (λ _. ⊥) self.new.met.items self.new.todo.items) }
        ensures less { OnOk result (2 * unmet_count self.new.met.items + length self.new.todo.items
            ≤ 2 * unmet_count self.old.met.items + length self.old.todo.items) }
    {
        let edges = draft.edges(index);
        self.visit(draft.index_of(edges.next))?;
        self.visit(draft.index_of(edges.jump))
    }

    /// Follows edges until no word is pending.
    fn search(&mut self, draft: &Draft) -> Result<(), AllocError>
        requires rules { IsDraft draft.now }
        requires gathered { IsGathered draft.now (λ _. ⊥) self.old.met.items
            self.old.todo.items }
        ensures { OnOk result (IsMet draft.now self.new.met.items) }
    {
        while let Some(index) = self.todo.pop() {
            self.follow(draft, index)?;
        }
        Ok(())
    }
}

/// Whether each word, by its index, is reachable from the section's first word through edges inside
/// the section.
///
/// # Errors
///
/// Out of memory.
pub fn reachable(alloc: Global, draft: &Draft) -> Result<Vec<bool>, AllocError>
    ensures { IfOk result (λ met. IsMet draft.now met.items) }
{
    let mut frontier = Frontier::new(alloc, draft.len())?;
    frontier.visit(Some(0))?;
    frontier.search(draft)?;
    Ok(frontier.met)
}
