ghost use Rattle.std.specs.Prelude.{◌≡◌, ◌≤◌, ◌<◌, [], ◌∷◌, length, IfOk, IfSome, IfNone};

use ldp_design::DesignBox;
use std::alloc::{AllocError, Global};
use std::marker::Model;

/// Boxes whose nodes a walk along a forest has still to come to. It is made with all the room that
/// it has, and takes no memory later.
#[derive(Drop)]
pub struct Stack {
    room: usize,
    boxes: Vec<DesignBox>,
}

impl Model for Stack {
    ghost use Rattle.std.specs.Prelude.{◌≤◌, reverse, vec_capacity};
    ghost use Rattle.ldp_check.specs.Stacks.{BoxStack};

    ghost Value = { BoxStack };

    ghost view = { λ stack. record { room = stack.room; boxes = reverse stack.boxes.items } };

    ghost invariant = { λ stack. stack.room ≤ vec_capacity stack.boxes };
}

impl Stack {
    /// An empty stack with room for so many boxes.
    pub fn with_room(alloc: Global, room: usize) -> Result<Stack, AllocError>
        requires { room ≤ 4_000_000 }
        ensures { IfOk result (λ stack. stack ≡ record { room = room; boxes = [] }) }
    {
        let boxes = Vec::with_capacity(alloc, room)?;
        Ok(Stack { room, boxes })
    }

    /// How many boxes it has room for.
    pub fn room(&self) -> usize
        ensures { result ≡ self.now.room }
    {
        self.room
    }

    pub(crate) fn clear(&mut self)
        ensures { self.new ≡ record self.old { boxes = [] } }
    {
        self.boxes.clear();
    }

    pub(crate) fn push(&mut self, b: DesignBox)
        requires { length self.old.boxes < self.old.room }
        ensures { self.new ≡ record self.old { boxes = b ∷ self.old.boxes } }
    {
        let _ = self.boxes.push(b);
    }

    pub(crate) fn pop(&mut self) -> Option<DesignBox>
        ensures some { IfSome result (λ b. self.old.boxes ≡ b ∷ self.new.boxes) }
        ensures none { IfNone result (self.old.boxes ≡ []) }
        ensures empty { IfNone result (self.new.boxes ≡ []) }
        ensures room { self.new.room ≡ self.old.room }
    {
        self.boxes.pop()
    }
}
