//! Worked examples: each clause is computed from the definitions alone.

ghost use Rattle.std.specs.Prelude.{◌≡◌, ◌++◌, Some, None, [], ◌∷◌, map, codes};
ghost use Rattle.house_base.specs.declared.answer.Reason.TheVariants as reason;
ghost use Rattle.house_model.specs.declared.goal.Goal.TheVariants as goal;
ghost use Rattle.house_model.specs.Ending.{Ended};
ghost use Rattle.house_model.specs.Examples as call;
ghost use Rattle.house_model.specs.Printed.{applicant_rows, name_in, chance_at};
ghost use Rattle.house_model.specs.Reviews.{asides_of, points_of};
ghost use Rattle.house_model.specs.Said.{seed_of, seal_of, draw_of, setting, run_pairs};
ghost use Rattle.house_model.specs.Seeds.{seed_draw};
ghost use Rattle.house_model.specs.Text.{lines};
ghost use Rattle.house_model.specs.Texts.{pairs_text};
ghost use Rattle.house_model.specs.Runs.{end_of, report_of};

/// The report of a call of four applicants, from its lines, whatever blank lines, comments and line ends the
/// file has.
pub fn four_applicants()
    ensures report { report_of (lines call.four_applicants) ≡ call.four_applicants_report }
    ensures spaced { report_of (lines call.four_applicants_spaced) ≡ call.four_applicants_report }
{}

/// The report of a call in which one person has two applicants.
pub fn two_of_one_person()
    ensures report { report_of (lines call.two_of_one_person) ≡ call.two_of_one_person_report }
{}

/// What is first read of that report: the names in the rows of its applicants, and the chance at each index; none
/// behind the last row.
pub fn two_of_one_person_as_read()
    ensures names { map name_in (applicant_rows call.two_of_one_person_report)
        ≡ codes "a1" ∷ codes "a2" ∷ codes "b" ∷ codes "c" ∷ [] }
    ensures chances { map (chance_at call.two_of_one_person_report) (0 ∷ 1 ∷ 2 ∷ 3 ∷ 4 ∷ [])
        ≡ codes "3000000/3000000" ∷ codes "1000000/3000000" ∷ codes "2000000/3000000" ∷ codes "0/3000000" ∷ [] ∷ [] }
{}

/// How these calls end.
pub fn ends()
    ensures four { end_of goal.Run (lines call.four_applicants) ≡ Ended.Done }
    ensures spaced { end_of goal.Run (lines call.four_applicants_spaced) ≡ Ended.Done }
    ensures two { end_of goal.Run (lines call.two_of_one_person) ≡ Ended.Done }
    ensures undrawn { end_of goal.Run (lines call.four_before_the_draw) ≡ Ended.Refused 16 reason.Unfinished }
{}

/// Why these lines are refused, and where.
pub fn refusals()
    ensures no_command { end_of goal.Run (lines (codes "call 1 2 1\nhello\n")) ≡ Ended.Refused 2 reason.Form }
    ensures draw_at_once { end_of goal.Run (lines (codes "call 1 2 1\ndraw 0\n")) ≡ Ended.Refused 2 reason.Order }
    ensures capital { end_of goal.Run (lines (codes "call 1 2 1\napplicant Bob\n")) ≡ Ended.Refused 2 reason.Name }
    ensures many_words { end_of goal.Run (lines (codes "call 1 2 1\napplicant a b c d\n"))
        ≡ Ended.Refused 2 reason.Form }
    ensures one_too_many { end_of goal.Run (lines (codes "call 1 2 1\napplicant a1 a\napplicant a2 a\napplicant a3 a\napplicant a4 a\napplicant a5 a\napplicant a6 a\n")) ≡ Ended.Refused 7 reason.TooMany }
    ensures nothing { end_of goal.Run (lines (codes "")) ≡ Ended.Refused 1 reason.NoCall }
{}

/// The report of a call in which the applicants of one person are not registered one after the other.
pub fn two_of_one_person_apart()
    ensures report { report_of (lines call.two_of_one_person_apart) ≡ call.two_of_one_person_apart_report }
    ensures ends { end_of goal.Run (lines call.two_of_one_person_apart) ≡ Ended.Done }
{}

/// The report of a call in which reviews were written: the last line on a pair counts.
pub fn five_reviewed()
    ensures { report_of (lines call.five_reviewed) ≡ call.five_reviewed_report }
{}

/// Which review lines are set aside, and under which kind.
pub fn four_set_aside()
    ensures asides { asides_of goal.Run (lines call.four_set_aside)
        ≡ record { form = 1; early = 1; late = 1; unknown = 1; unassigned = 1; range = 2 } }
    ensures kept { points_of (lines (call.four_assigned ++ codes "review a c 5\nreview a c 7\nreview a c 101\n")) 0 2
        ≡ 7 }
{}

/// What may not come where it stands.
pub fn orders()
    ensures second_call { end_of goal.Run (lines (codes "call 1 2 1\ncall 1 2 1\n")) ≡ Ended.Refused 2 reason.Order }
    ensures close_at_once { end_of goal.Run (lines (codes "call 1 2 1\nclose\n")) ≡ Ended.Refused 2 reason.Order }
    ensures second_assign { end_of goal.Run (lines (call.four_assigned ++ codes "assign\n"))
        ≡ Ended.Refused 15 reason.Order }
    ensures late_applicant { end_of goal.Run (lines (call.four_assigned ++ codes "applicant e\n"))
        ≡ Ended.Refused 15 reason.Order }
    ensures late_place { end_of goal.Run (lines (call.four_assigned ++ codes "place a 1\n"))
        ≡ Ended.Refused 15 reason.Order }
    ensures late_pair { end_of goal.Run (lines (call.four_assigned ++ codes "pair a d\n"))
        ≡ Ended.Refused 15 reason.Order }
    ensures draw_before_close { end_of goal.Run (lines (call.four_assigned ++ codes "draw 0\n"))
        ≡ Ended.Refused 15 reason.Order }
    ensures second_close { end_of goal.Run (lines (call.four_before_the_draw ++ codes "close\n"))
        ≡ Ended.Refused 16 reason.Order }
    ensures late_assign { end_of goal.Run (lines (call.four_before_the_draw ++ codes "assign\n"))
        ≡ Ended.Refused 16 reason.Order }
    ensures second_draw { end_of goal.Run (lines (call.four_applicants ++ codes "draw 0\n"))
        ≡ Ended.Refused 17 reason.Order }
    ensures draw_at_the_denominator { end_of goal.Run (lines (call.four_before_the_draw ++ codes "draw 4000000\n"))
        ≡ Ended.Refused 16 reason.Range }
    ensures greatest_draw { end_of goal.Run (lines (call.four_before_the_draw ++ codes "draw 3999999\n")) ≡ Ended.Done }
{}

/// How calls end at their assignments: where none can be, where one settles what was asked for, where the pairs are not
/// looked at, and what stands behind it.
pub fn ends_at_the_assignment()
    ensures short { end_of goal.Run (lines call.one_assigned) ≡ Ended.Short }
    ensures short_pairs { end_of goal.Pairs (lines call.one_assigned) ≡ Ended.Short }
    ensures short_feasible { end_of goal.Feasible (lines call.one_assigned) ≡ Ended.Short }
    ensures pairs { end_of goal.Pairs (lines call.four_assigned) ≡ Ended.Settled }
    ensures feasible { end_of goal.Feasible (lines call.four_assigned) ≡ Ended.Settled }
    ensures invalid { end_of goal.Pairs (lines call.two_with_one_pair) ≡ Ended.Refused 7 reason.Invalid }
    ensures not_looked_at { end_of goal.Feasible (lines call.two_with_one_pair) ≡ Ended.Settled }
    ensures unassigned { end_of goal.Feasible (lines call.placed) ≡ Ended.Refused 4 reason.Unfinished }
    ensures behind { end_of goal.Run (lines (call.four_assigned ++ codes "hello\n")) ≡ Ended.Refused 15 reason.Form }
    ensures nothing_behind { end_of goal.Pairs (lines (call.four_assigned ++ codes "hello\n")) ≡ Ended.Settled }
{}

/// The pairs of a call for which none were made by hand, and those that were.
pub fn pairs_of_calls()
    ensures found { pairs_text (setting (lines call.two_assigned)) (run_pairs (lines call.two_assigned))
        ≡ codes "pair a b\npair b a\n" }
    ensures made { pairs_text (setting (lines call.four_assigned)) (run_pairs (lines call.four_assigned))
        ≡ codes "pair a c\npair b d\npair c a\npair d b\n" }
{}

/// What draws say: the number that is drawn, or what the seed of a lottery draws for the denominator; and the digest
/// that a seal spells.
pub fn draws_and_seals()
    ensures number { draw_of (lines (call.four_before_the_draw ++ codes "draw 3999999\n")) ≡ 3999999 }
    ensures seed { draw_of (lines (call.four_before_the_draw ++ codes "lottery dice-4\n"))
        ≡ seed_draw (codes "dice-4") 4000000 }
    ensures seal { seal_of (lines (codes "call 1 2 1\nseal 00ff1a\nseal 01\n")) ≡ Some (0 ∷ 255 ∷ 26 ∷ []) }
    ensures clusters { seed_of (lines call.partitioned) ≡ Some (codes "dice-4") }
    ensures placed { seed_of (lines call.placed) ≡ None }
{}
