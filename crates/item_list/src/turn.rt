//! What a turn answers of what is done in turns.

ghost use Rattle.std.specs.Prelude.{◌≡◌, ⊤};

use std::alloc::AllocError;

/// The answer of a turn.
#[derive(Drop)]
pub enum Turn<N, E> {
    /// It goes on, by this.
    More(N),
    /// It is at its end, with this.
    Done(E),
}

/// By hand, since what is derived for a type with parameters is dear to prove.
impl<N: Copy, E: Copy> Clone for Turn<N, E> {
    ghost is_clone = { λ x y. y ≡ x };

    ghost is_infallible = { λ _. ⊤ };

    fn clone(&self) -> Result<Turn<N, E>, AllocError> {
        Ok(*self)
    }
}

impl<N: Copy, E: Copy> Copy for Turn<N, E> {}
