// What is proved of the calls on four cores: each function does nothing, and its contract is the theorem.
ghost use Rattle.cluster_calls.specs.Made.{made_is_after};
ghost use Rattle.cluster_calls.specs.Rows.{ClusterRows};
ghost use Rattle.cluster_calls.specs.Steps.{calls_are_steps};

/// A call that words name is the step that the cluster makes of it: by the number, which tells a refusal, as much is
/// delivered as by the reply. So what is proved of the cluster's steps is proved of these calls. Rules out a fault that
/// delivers nothing, and a number that refuses where its reply does not.
pub fn every_call_is_a_step()
    ensures steps { calls_are_steps }
{}

/// Four cores that were fresh, and that calls then changed, each as its contract promises, are the four after the list
/// of those calls; so each further call is faithful. Rules out a call that promises one thing of the cores and leaves
/// another.
pub fn made_cores()
    ensures made { made_is_after }
{}

/// The calls in numbers, computed. Rules out, in code and definition alike, a core's number taken modulo 4, 64 before
/// 8, a refused call that delivers, windows' 9 and 10 that do, and what is pending delivered by another core's call.
pub fn calls_in_numbers()
    ensures rows { ClusterRows }
{}
