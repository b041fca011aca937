// The stages of a player as bytes.
ghost use Rattle.std.specs.Prelude.{◌≡◌};
ghost use Rattle.call_log.specs.Stages.{stage_byte, stage_of};

use crate::Stage;

impl From<Stage> for u8 {
    ghost from_gives = { λ stage b. b ≡ stage_byte stage };

    fn from(stage: Stage) -> u8 {
        match stage {
            Stage::Header => 0,
            Stage::Records => 1,
            Stage::Again => 2,
            Stage::Broken => 3,
        }
    }
}

// A byte above 3 is no stage: a player with it goes on no more.
impl From<u8> for Stage {
    ghost from_gives = { λ b stage. stage ≡ stage_of b };

    fn from(b: u8) -> Stage {
        match b {
            0 => Stage::Header,
            1 => Stage::Records,
            2 => Stage::Again,
            _ => Stage::Broken,
        }
    }
}
