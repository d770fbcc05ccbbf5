//! The pool.

ghost use Rattle.std.specs.Prelude.{◌≡◌, ◌≤◌, ◌+◌, ◌++◌, ◌∷◌, [], IfOk, IfSome, IsOk, None, OnErr, Some, is_some, length, option_map, replicate, true};
ghost use Rattle.holder_model_values.specs.declared.run_values.leaf.Leaf.TheVariants.{Blank};
ghost use Rattle.count_heap.specs.PooledLeaves.Pieces.{HasFree, IsChanged, no_pieces, piece_in, put_leaves};

use crate::pooled_leaves::free::{pop, push};
use crate::pooled_leaves::grow::{add_leaves, add_stack};
use crate::pooled_leaves::parts::{blank_part, part, put_part};
use crate::pooled_leaves::piece::Piece;
use holder_model_values::Leaf;
use sil_ast::Exhausted;
use std::alloc::Global;
use std::marker::Model;

/// Leaves, of which pieces are given out. To a contract it is what its pieces hold, and how many leaves each has.
#[derive(Drop)]
pub struct LeafPool {
    leaves: Vec<Leaf>,
    /// One behind another.
    pieces: Vec<Piece>,
    /// By size, the top of the stack of free pieces: 0, or one more than the piece's number.
    tops: Vec<u32>,
}

impl Model for LeafPool {
    ghost use Rattle.std.specs.Coded.{codes};
    ghost use Rattle.count_heap.specs.PooledLeaves.Pieces.{Pieces};

    ghost Value = { Pieces };

    ghost coded = { Prim.hlevel codes };

    ghost use Rattle.count_heap.specs.PooledLeaves.inner.Layout.{IsPool, pieces_in};

    ghost view = { λ p. pieces_in p.leaves.items p.pieces.items };

    ghost invariant = { λ p. IsPool p.leaves.items p.pieces.items p.tops.items };
}

impl LeafPool {
    /// A pool without pieces.
    pub fn new(alloc: Global) -> LeafPool
        ensures { result ≡ no_pieces }
    {
        LeafPool {
            leaves: Vec::new(alloc),
            pieces: Vec::new(alloc),
            tops: Vec::new(alloc),
        }
    }

    /// A piece of blank leaves that wasn't given out: a free one of this size, where there is one, and else a new one. Where there is no memory
    /// for a new one, nothing changes.
    pub fn take(&mut self, size: u32) -> Result<usize, Exhausted>
        ensures taken { IfOk result (λ p. piece_in self.old p ≡ None) }
        ensures ok { IfOk result (λ p. IsChanged self.old self.new p (Some (replicate size Blank))) }
        ensures free { HasFree self.old size → IsOk result × (self.new.sizes ≡ self.old.sizes) }
        ensures grown { IfOk result (λ _. (HasFree self.old size → ⊥) → self.new.sizes ≡ self.old.sizes ++ size ∷ []) }
        ensures err { OnErr result (self.new ≡ self.old) }
    {
        match pop(&mut self.tops, &mut self.pieces, size as usize) {
            Some(p) => {
                blank_part(&mut self.leaves, &self.pieces, p);
                Ok(p)
            }
            None => self.add(size),
        }
    }

    /// A new piece of blank leaves.
    #[inline(never)]
    fn add(&mut self, size: u32) -> Result<usize, Exhausted>
        ensures taken { IfOk result (λ p. piece_in self.old p ≡ None) }
        ensures ok { IfOk result (λ p. IsChanged self.old self.new p (Some (replicate size Blank))) }
        ensures grown { IfOk result (λ _. self.new.sizes ≡ self.old.sizes ++ size ∷ []) }
        ensures err { OnErr result (self.new ≡ self.old) }
    {
        let p = self.pieces.len();
        if p >= u32::MAX as usize {
            return Err(Exhausted);
        }
        add_stack(&mut self.tops, &self.pieces, size as usize)?;
        self.pieces.reserve(1)?;
        let first = add_leaves(&mut self.leaves, size as usize)?;
        self.pieces.push_reserved(Piece {
            first,
            size,
            depth: 0,
            next: 0,
        });
        Ok(p)
    }

    /// Gives a piece back.
    #[inline]
    pub fn give_back(&mut self, p: usize)
        requires { is_some (piece_in self.old p) ≡ true }
        ensures freed { IsChanged self.old self.new p None }
        ensures sizes { self.new.sizes ≡ self.old.sizes }
    {
        push(&mut self.tops, &mut self.pieces, p);
    }

    /// The leaves of a piece.
    #[inline]
    pub fn leaves(&self, p: usize) -> &[Leaf]
        requires { is_some (piece_in self.now p) ≡ true }
        ensures { piece_in self.now p ≡ Some result.now }
    {
        part(&self.leaves, &self.pieces, p)
    }

    /// Writes leaves into a piece, from a place on.
    #[inline]
    pub fn write(&mut self, p: usize, from: usize, leaves: &[Leaf])
        requires there { is_some (piece_in self.old p) ≡ true }
        requires within { IfSome (piece_in self.old p) (λ old. from + length leaves.now ≤ length old) }
        ensures written { IsChanged self.old self.new p (option_map (put_leaves from leaves.now) (piece_in self.old p)) }
        ensures sizes { self.new.sizes ≡ self.old.sizes }
    {
        put_part(&mut self.leaves, &self.pieces, p, from, leaves);
    }
}
