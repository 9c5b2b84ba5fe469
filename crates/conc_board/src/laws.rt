// Laws on a board: over every state that its rule allows, every step and every course of lead states. Each
// function here has an empty body; its contract is the law.
ghost use Rattle.std.specs.Prelude.{◌≡◌, ◌≤◌, ℕ, List, IsTrue};
ghost use Rattle.conc_types.specs.declared.plan.Plan.{Plan};
ghost use Rattle.conc_pool_seats.specs.declared.views.LeadState.{LeadState};
ghost use Rattle.conc_pool_seats.specs.declared.views.LeadState.TheVariants.{NotLet};
ghost use Rattle.conc_pool_seats.specs.declared.views.View.{View};
ghost use Rattle.conc_pool_seats.specs.Courses.{IsCourse};
ghost use Rattle.conc_pool_seats.specs.Doings.{carried_by};
ghost use Rattle.conc_pool_seats.specs.Rule.{BoardState, Keep};
ghost use Rattle.conc_pool_seats.specs.LeadStates.{is_marked};
ghost use Rattle.conc_board.specs.Counts.{AreMarked, count_of_goes, count_of_takes};
ghost use Rattle.conc_board.specs.Permits.{HaveApart};
ghost use Rattle.conc_board.specs.Points.{DifferInFinds, Points, PostsAreRecorded, StepsAreRecorded};
ghost use Rattle.conc_board.specs.Seats.{doing_of, slots_of};

use crate::Hand;

// ---- every state

/// Two permits for requests that exclude each other never exist at one moment, nor two for one
/// request, nor two for one place.
pub fn permits_are_apart()
    ensures { (plan : Plan) (s : BoardState) → Keep plan s →
        (i j : ℕ) → HaveApart plan s.views i j }
{}

/// What the rule says of every state, point by point.
pub fn rule_has_points()
    ensures { (plan : Plan) (s : BoardState) → Keep plan s → Points plan s }
{}

/// The rule does not read what the seats found, nor what they took and left.
pub fn rule_reads_no_finds()
    ensures { (plan : Plan) (s : BoardState) (others : List View) → Keep plan s →
        DifferInFinds s.views others → Keep plan
        (record { words = s.words; homes = s.homes; views = others }) }
{}

/// A hand has the slot of the request that it has the permit for, and no other slot.
pub fn permit_has_its_slot(hand: &Hand)
    ensures { slots_of hand.now ≡ carried_by (doing_of hand.now) }
{}

// ---- every step

/// Each step adds what it found to what its seat found; a post adds what it leaves to what its hand left, and the
/// load that takes a slot adds what was there to what the lead took.
pub fn steps_are_recorded()
    ensures found { StepsAreRecorded }
    ensures posts { PostsAreRecorded }
{}

// ---- every course of the lead states of one request, from one call of the lead's to the next

/// What was left for a request is taken at most once for each go, and at most once in all.
pub fn reports_come_once()
    ensures goes { (lead_states : List LeadState) → IsCourse NotLet lead_states →
        count_of_takes NotLet lead_states ≤ count_of_goes NotLet lead_states }
    ensures once { (lead_states : List LeadState) → IsCourse NotLet lead_states
        → count_of_goes NotLet lead_states ≤ 1 }
{}

/// A mark stays.
pub fn marks_stay()
    ensures { (lead_state : LeadState) (lead_states : List LeadState)
        → IsCourse lead_state lead_states → IsTrue (is_marked lead_state)
        → AreMarked lead_states }
{}
