// Two ends on each source: which of its records are left.
ghost use Rattle.std.specs.Prelude.{◌≡◌, ◌<◌, ltb, None, Some, IfSome, if◌then◌else◌};
ghost use Rattle.bundle.specs.Bundle.{bundle_limit};
ghost use Rattle.merge.specs.Plain.{front_at, back_at, pass};
ghost use Rattle.merge.specs.Private.{left_of, place_at};

use bundle::BUNDLE_LIMIT;

// A value and not a function handed in: `step_in` and all below it take an end, of which `demand-2` speaks.
#[derive(Clone, Copy)]
pub enum End {
    Front,
    Back,
}

// For each source two ends, half open: two arrays, as the cursor has them that crosses to C. They alone move: so they stay beside the layout that they fit, since of one lent value of both each function that moves them would have to say that its layout stays.
#[derive(Clone, Copy)]
pub struct Ends {
    pub front: [u32; BUNDLE_LIMIT],
    pub back: [u32; BUNDLE_LIMIT],
}

// What one source has left.
#[derive(Clone, Copy)]
pub struct Left {
    pub front: u32,
    pub back: u32,
}

impl Left {
    // The number of the record that stands next at an end.
    #[tactic(auto, unfolding(crate::specs::Private::place_at))]
    pub(crate) fn next(self, end: End) -> Option<usize>
        ensures next { result ≡ (if ltb self.front self.back then Some (place_at end self) else None) }
        ensures left { IfSome result (λ number. number < self.back) }
    {
        let front = self.front as usize;
        let back = self.back as usize;
        if back <= front {
            return None;
        }
        match end {
            End::Front => Some(front),
            End::Back => Some(back - 1),
        }
    }
}

impl Ends {
    // What source k has left.
    #[tactic(auto, unfolding(bundle::specs::Bundle::bundle_limit, crate::specs::Plain::front_at, crate::specs::Plain::back_at, crate::specs::Private::left_of))]
    pub fn left(&self, k: usize) -> Left
        requires { k < bundle_limit }
        ensures { result ≡ left_of self.now k }
    {
        Left {
            front: self.front[k],
            back: self.back[k],
        }
    }

    // Past the record that source k has next.
    #[tactic(auto, unfolding(bundle::specs::Bundle::bundle_limit, crate::specs::Plain::front_at, crate::specs::Plain::back_at, crate::specs::Plain::pass))]
    pub fn pop(&mut self, k: usize, end: End)
        requires source { k < bundle_limit }
        requires some_left { front_at self.old k < back_at self.old k }
        ensures { self.new ≡ pass end self.old k }
    {
        match end {
            End::Front => self.front[k] += 1,
            End::Back => self.back[k] -= 1,
        }
    }
}
