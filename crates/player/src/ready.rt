// A player that has ordinals left for another record.
ghost use Rattle.std.specs.Prelude.{ℕ, ◌+◌, ◌<◌, ◌≡◌, List, [], true, false, MatchOption};
ghost use Rattle.player.specs.Run.{after_other};
ghost use Rattle.player.specs.Play.{progress_of, ordinals_used};

use crate::Player;
use machine::Processor;

#[derive(Clone, Copy)]
pub(crate) struct Ready {
    pub(crate) player: Player,
    ghost left: { (player.requests < 18446744073709551615) × (player.records < 18446744073709551615) },
}

impl Ready {
    // The player, unless its ordinals are used up.
    pub(crate) fn new(player: Player) -> Option<Ready>
        ensures { MatchOption result (ordinals_used (progress_of player [] []) ≡ true)
            (λ ready. (ready.player ≡ player) × (ordinals_used (progress_of player [] []) ≡ false)) }
    {
        if player.records == u64::MAX || player.requests == u64::MAX {
            return None;
        }
        Some(Ready { player })
    }

    // The player with one record more, which is no request.
    pub(crate) fn after_other(self) -> Player
        ensures { (storage keys : List ℕ) → progress_of result storage keys ≡ after_other (progress_of self.player storage keys) }
    {
        Player {
            records: self.player.records + 1,
            ..self.player
        }
    }

    // The player with one request more, which leaves these records of the processors.
    pub(crate) fn after_request(self, processors: [Processor; 2]) -> Player
        ensures { result ≡ record { processors = processors; requests = self.player.requests + 1; records = self.player.records + 1 } }
    {
        let Player {
            requests,
            records,
            ..
        } = self.player;
        Player {
            processors,
            requests: requests + 1,
            records: records + 1,
        }
    }
}
