//! Laws of the definitions.

ghost use Rattle.mx_run.specs.Leads.{AnswersDecide, FilesLead, FilesDecide};
ghost use Rattle.mx_run.specs.Causes.{StatusesHaveCauses, CausesDecide, LargeSchedulesRefuse, StoreFaultsRise};
ghost use Rattle.mx_run.specs.Causes.{NoneIsShort, NoFileIsAbsent, AbsentIsNoFile, SuccessKeeps};

use mx_io::Store;

/// A law: the same answers of a store lead to one outcome. So a call has no status without its cause.
pub fn answers_decide()
    ensures { AnswersDecide }
{}

/// A law: over every list of files what is asked leads to an outcome, and to one alone. So what a clause says of every
/// outcome of the files it says of just one.
pub fn files_decide()
    ensures some { FilesLead }
    ensures one { FilesDecide }
{}

/// A law: answers lead to a status only by its cause, and to each but `Ran` wherever there is its cause.
pub fn statuses_have_causes()
    ensures only { StatusesHaveCauses }
    ensures exactly { CausesDecide }
{}

/// A law: a run that goes on from a snapshot ends with `Refused` only for a schedule over its limit, fault 9.
pub fn large_schedules_refuse()
    ensures { LargeSchedulesRefuse }
{}

/// A law, over every store: what it gave leads to `StoreFault` only where its count rose. Where it tells its files, it
/// never leads to `ShortFile`, and to `NoFile` just where a file is absent when it is reached, if no call failed there.
/// Where
/// every call succeeded its count stayed.
pub fn stores_show_causes<S: Store>()
    ensures store_fault { StoreFaultsRise S.state S.gives }
    ensures short_file { NoneIsShort S.state S.gives }
    ensures no_file { NoFileIsAbsent S.state S.gives }
    ensures absent { AbsentIsNoFile S.state S.gives }
    ensures kept { SuccessKeeps S.state S.gives }
{}
