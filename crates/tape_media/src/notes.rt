// What notes of steps are lists of.
ghost use Rattle.tape_media.specs.Steps.{Made};

use std::marker::Model;

/// A step of a medium with its moment, for notes of steps: contracts see it whole, and no code makes one.
#[derive(Drop)]
pub struct MadeStep {
    ghost made: { Made },
}

impl Model for MadeStep {
    ghost use base.Fml.{ftrue};
    ghost use Rattle.tape_media.specs.Steps.{Made};

    ghost also_owns = { λ _. ftrue };

    ghost Value = { Made };

    ghost view = { λ s. s.made };
}
