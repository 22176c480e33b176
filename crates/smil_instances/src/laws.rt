//! Laws of what is kept. A function here has no code: its contract is the law.

ghost use Rattle.smil_instances.specs.Laws.{RowsTellInstances};
ghost use Rattle.smil_instances.specs.ExpectedTimes.{InstancesAreMerged};
ghost use Rattle.smil_instances.specs.Updates.{EntriesAreTakenIn, OnlyConcernedChange, BasesAreElements};

/// The instance times of an element are those that are kept, with the expected ones put in their
/// places.
pub fn instances_are_merged()
    ensures { InstancesAreMerged }
{}

/// Of a history the rows tell the instance times that follow from no current interval.
pub fn rows_tell_instances()
    ensures { RowsTellInstances }
{}

/// What is kept for an item after one more entry is what was kept and what the entry gives, without
/// what a birth takes out.
pub fn entries_are_taken_in()
    ensures { EntriesAreTakenIn }
{}

/// An entry changes what is kept for those items alone whose source, or whose births, it is of.
pub fn only_concerned_items_change()
    ensures { OnlyConcernedChange }
{}

/// The elements that items name are elements of the document.
pub fn bases_are_elements()
    ensures { BasesAreElements }
{}
