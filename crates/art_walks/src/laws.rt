//! The law of faults: the function does nothing, and its contract is the law.
ghost use Rattle.art_walks.specs.Faults.{FaultMeansNoTree};

/// There is a fault only if the root means no tree. Out of memory is no such fault.
pub fn fault_means_no_tree<K, V>()
    ensures { FaultMeansNoTree K V }
{}
