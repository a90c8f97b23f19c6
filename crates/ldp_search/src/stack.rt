ghost use Rattle.std.specs.Prelude.{◌≡◌, [], ◌∷◌, OnOk, IfSome, IfNone};

use ldp_design::DesignBox;
use std::alloc::{AllocError, Global};
use std::marker::Model;

/// Boxes whose nodes are to be written, seen as the list of them, the next one first.
#[derive(Drop)]
pub struct Stack {
    boxes: Vec<DesignBox>,
}

impl Model for Stack {
    ghost use Rattle.std.specs.Prelude.{List, reverse};
    ghost use Rattle.ldp_design.specs.declared.design_box.DesignBox.{DesignBox};

    ghost Value = { List DesignBox };

    ghost view = { λ stack. reverse stack.boxes.items };
}

impl Stack {
    /// No box.
    pub fn new(alloc: Global) -> Stack
        ensures { result ≡ [] }
    {
        Stack {
            boxes: Vec::new(alloc),
        }
    }

    /// Puts a box in front of the others: it is the next one.
    pub fn push(&mut self, b: DesignBox) -> Result<(), AllocError>
        ensures { OnOk result (self.new ≡ b ∷ self.old) }
    {
        self.boxes.push(b)?;
        Ok(())
    }

    /// Takes the next box, if there is one.
    pub fn pop(&mut self) -> Option<DesignBox>
        ensures some { IfSome result (λ b. self.old ≡ b ∷ self.new) }
        ensures none { IfNone result (self.old ≡ []) }
        ensures empty { IfNone result (self.new ≡ []) }
    {
        self.boxes.pop()
    }
}
