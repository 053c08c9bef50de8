//! Laws of commands, histories and sessions: undo and redo lead to the folders that they should. A history lists
//! folders, a session the changes between them. Each law is the contract of an empty function.

ghost use Rattle.par2_spec.specs.Folders.{Folder};
ghost use Rattle.par2_spec.specs.Commands.{Command};
ghost use Rattle.par2_spec.specs.Plans.{AreFewFor, LeadsToAfter};
ghost use Rattle.par2_spec.specs.Laws.{KeptSessionsAreSessions, SessionsAreHistories, UndosLeadBack};

/// The changes that the definitions give a command (`changes_of`) apply in order and lead to `after`, the folder that
/// they give it. `AreFewFor`: the numbers of asides fit in 64 bits. Nothing calls it.
pub fn commands_lead_to_their_folder()
    ensures { (f : Folder) (command : Command) → AreFewFor f command → LeadsToAfter f command }
{}

/// A session whose entries, the lists of changes of its undos and redos, can be applied follows its history: it accepts
/// and refuses the same actions, and its entries can be applied afterwards. Nothing calls it.
pub fn session_is_a_history()
    ensures { SessionsAreHistories }
{}

/// A run of creates, repairs and purges puts a folder in front of the history for each of the n that are accepted. n
/// undos lead back to the folders before the run. `undone_runs_lead_back` of `par2_tool` needs it.
pub fn undos_lead_back()
    ensures { UndosLeadBack }
{}

/// A `KeptSession`, a session with its vacant places and its room for entries, follows the session without these: each
/// action leads to the same folder and entries. Nothing calls it.
pub fn kept_session_is_a_session()
    ensures { KeptSessionsAreSessions }
{}
