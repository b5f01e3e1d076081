// How many commits may wait for their write-back.
ghost use Rattle.std.specs.Prelude.{◌≡◌, ◌≤◌};
ghost use Rattle.mars_shell.specs.Late.{depth_of, HasDepth};

use command_words::Writing;

/// So many as the words ask for.
pub fn depth_of(writing: Writing) -> u8
    requires { HasDepth writing }
    ensures depth { result ≡ depth_of writing }
    ensures most { result ≤ 64 }
{
    match writing {
        Writing::AtOnce => 0,
        Writing::Late(depth) => depth,
    }
}
