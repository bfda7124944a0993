//! Laws of questions' lines and of lines that answer, each on a call that carries it.
ghost use Rattle.std.specs.Prelude.{◌≡◌, ◌↔◌, ℕ, List, IsTrue};
ghost use Rattle.cfg_world.specs.declared.ask.Question.{Question as Asked};
ghost use Rattle.cfg_world.specs.declared.ask.Answer.{Answer as Given};
ghost use Rattle.cfg_world.specs.declared.script.DeviceLists.{DeviceLists as Lists};
ghost use Rattle.cfg_lines.specs.Alone.{IsOneItem};
ghost use Rattle.cfg_lines.specs.Items.{has_one_item};
ghost use Rattle.cfg_lines.specs.Questions.{told};
ghost use Rattle.cfg_lines.specs.Lines.{IsQuestionLine, IsAnswer, IsNoAnswer};

/// One question has one line.
pub fn one_question_has_one_line()
    ensures { (asked : Asked) (one other : List ℕ) → IsQuestionLine asked one → IsQuestionLine asked other → one ≡ other }
{}

/// One line is the line of one question, but for what no line tells: of credentials that sign a call, what is known
/// of them beside the keys.
pub fn one_line_is_of_one_question()
    ensures { (line : List ℕ) (one other : Asked) → IsQuestionLine one line → IsQuestionLine other line → told one ≡ told other }
{}

/// One line is one answer to a question, or none.
pub fn one_line_is_one_answer()
    ensures one { (asked : Asked) (line : List ℕ) (a b : Given) → IsAnswer asked line a → IsAnswer asked line b → a ≡ b }
    ensures none { (asked : Asked) (line : List ℕ) (a : Given) → IsAnswer asked line a → IsNoAnswer asked line → ⊥ }
{}

/// The lists of a line that answers are one item of what is asked, and nothing else; of a write that is granted they
/// are empty.
pub fn an_answer_is_one_item()
    ensures { (asked : Asked) (lists : Lists) → IsTrue (has_one_item asked lists) ↔ IsOneItem asked lists }
{}
