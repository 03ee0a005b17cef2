//! Worked examples of the first fault of a line after the lines before it.

ghost use Rattle.std.specs.Prelude.{◌≡◌, ◌++◌, codes, Some, None};
ghost use Rattle.house_base.specs.declared.answer.Reason.TheVariants as reason;
ghost use Rattle.house_model.specs.declared.goal.Goal.TheVariants as goal;
ghost use Rattle.house_model.specs.Examples as call;
ghost use Rattle.house_model.specs.Faults.{fault};
ghost use Rattle.house_model.specs.Text.{lines};

/// In an opening in which a has two applicants and b has one.
pub fn faults_in_the_opening()
    ensures no_call { fault goal.Run (lines (codes "# none\n")) (codes "hello") ≡ Some reason.NoCall }
    ensures again { fault goal.Run (lines call.opening) (codes "call 3 3 3") ≡ Some reason.Order }
    ensures no_command { fault goal.Run (lines call.opening) (codes "hello") ≡ Some reason.Form }
    ensures few_words { fault goal.Run (lines call.opening) (codes "pair a") ≡ Some reason.Form }
    ensures name { fault goal.Run (lines call.opening) (codes "applicant a1 A") ≡ Some reason.Name }
    ensures range { fault goal.Run (lines call.opening) (codes "place zed 4") ≡ Some reason.Range }
    ensures from_one { fault goal.Run (lines call.opening) (codes "place b 0") ≡ Some reason.Range }
    ensures known_applicant { fault goal.Run (lines call.opening) (codes "applicant a2 b") ≡ Some reason.Known }
    ensures known_place { fault goal.Run (lines call.opening) (codes "place a 2") ≡ Some reason.Known }
    ensures known_pair { fault goal.Run (lines call.opening) (codes "pair a b") ≡ Some reason.Known }
    ensures no_person { fault goal.Run (lines call.opening) (codes "place a1 2") ≡ Some reason.Unknown }
    ensures no_reviewer { fault goal.Run (lines call.opening) (codes "pair a1 b") ≡ Some reason.Unknown }
    ensures no_proposal { fault goal.Run (lines call.opening) (codes "pair b a") ≡ Some reason.Unknown }
    ensures unplaced { fault goal.Run (lines call.opening) (codes "assign") ≡ Some reason.Unplaced }
    ensures taken_place { fault goal.Run (lines call.opening) (codes "place b 3") ≡ None }
    ensures taken_pair { fault goal.Run (lines call.opening) (codes "pair b a2") ≡ None }
    ensures taken_name { fault goal.Run (lines call.opening) (codes "applicant a b") ≡ None }
    ensures blank { fault goal.Run (lines call.opening) (codes " # hello") ≡ None }
    ensures review { fault goal.Run (lines call.opening) (codes "review") ≡ None }
{}

/// Of a call line and of an assignment.
pub fn faults_of_calls_and_assignments()
    ensures no_seats { fault goal.Run (lines (codes "")) (codes "call 0 2 1") ≡ Some reason.Range }
    ensures many_seats { fault goal.Run (lines (codes "")) (codes "call 1001 2 1") ≡ Some reason.Range }
    ensures one_cluster { fault goal.Run (lines (codes "")) (codes "call 1 1 1") ≡ Some reason.Range }
    ensures many_clusters { fault goal.Run (lines (codes "")) (codes "call 1 31 1") ≡ Some reason.Range }
    ensures many_reviews { fault goal.Run (lines (codes "")) (codes "call 1 2 21") ≡ Some reason.Range }
    ensures greatest { fault goal.Run (lines (codes "")) (codes "call 1000 30 20") ≡ None }
    ensures leading_zero { fault goal.Run (lines (codes "")) (codes "call 01 2 1") ≡ Some reason.Range }
    ensures nobody { fault goal.Run (lines (codes "call 1 2 1\n")) (codes "assign") ≡ Some reason.Few }
    ensures invalid { fault goal.Run (lines (codes "call 1 2 1\napplicant a\napplicant b\nplace a 1\nplace b 2\npair a b\n")) (codes "assign") ≡ Some reason.Invalid }
    ensures within_a_cluster { fault goal.Run (lines (codes "call 1 2 1\napplicant a\napplicant b\nplace a 1\nplace b 1\npair a b\npair b a\n")) (codes "assign") ≡ Some reason.Invalid }
    ensures barred { fault goal.Run (lines (codes "call 1 2 1\napplicant a\napplicant b\nconflict a b\nplace a 1\nplace b 2\npair a b\npair b a\n")) (codes "assign") ≡ Some reason.Invalid }
    ensures valid { fault goal.Run (lines (codes "call 1 2 1\napplicant a\napplicant b\nplace a 1\nplace b 2\npair a b\npair b a\n")) (codes "assign") ≡ None }
    ensures computed { fault goal.Run (lines (codes "call 1 2 1\napplicant a\nplace a 1\n")) (codes "assign") ≡ None }
    ensures one_too_many { fault goal.Run (lines (codes "call 1 2 1\napplicant a1 a\napplicant a2 a\napplicant a3 a\napplicant a4 a\napplicant a5 a\n")) (codes "applicant a6 a") ≡ Some reason.TooMany }
{}

/// Of seeds and seals: clusters are drawn or persons placed, once each, and a draw has to keep to the seal.
pub fn faults_of_seeds_and_seals()
    ensures partition_behind_place { fault goal.Run (lines call.placed) (codes "partition dice-4") ≡ Some reason.Order }
    ensures place_behind_partition { fault goal.Run (lines call.partitioned) (codes "place a 1") ≡ Some reason.Order }
    ensures second_partition { fault goal.Run (lines call.partitioned) (codes "partition dice-4") ≡ Some reason.Order }
    ensures second_seal { fault goal.Run (lines call.sealed) call.seal ≡ Some reason.Order }
    ensures short_seal { fault goal.Run (lines call.placed) (codes "seal ff") ≡ Some reason.Form }
    ensures capital_seal { fault goal.Run (lines call.placed) call.capital_seal ≡ Some reason.Form }
    ensures no_seed { fault goal.Run (lines (codes "call 1 2 1\n")) (codes "partition dice_4") ≡ Some reason.Name }
    ensures early_lottery { fault goal.Run (lines call.sealed) (codes "lottery dice-4") ≡ Some reason.Order }
    ensures draw_under_a_seal { fault goal.Run (lines call.sealed_and_closed) (codes "draw 0") ≡ Some reason.Seal }
    ensures lottery_without_a_seal { fault goal.Run (lines (call.placed ++ codes "assign\nclose\n"))
        (codes "lottery dice-4") ≡ None }
    ensures taken_seed { fault goal.Run (lines (codes "call 1 2 1\n")) (codes "partition Dice-4") ≡ None }
    ensures placed_by_the_seed { fault goal.Run (lines call.partitioned) (codes "assign") ≡ None }
{}
