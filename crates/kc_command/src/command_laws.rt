//! Laws of command lines. Each is the contract of a function that does nothing.
ghost use Rattle.kc_command.specs.Laws.{
  ComparesTables,
  CountsBothStrands,
  CountsFiles,
  CountsListedWords,
  FiltersTables,
  IntersectsTables,
  JudgesInOrder,
  KeepsLimits,
  LooksUpWords,
  MergesTables,
  ProfilesRecords,
  ReadsTables,
  Refuses,
  ScalesNumbers,
  SelectsPairs,
  SelectsReads,
  SubtractsTables,
};

/// The values that some command lines ask for, and why others are refused.
pub fn command_lines()
    ensures counts { CountsBothStrands }
    ensures files { CountsFiles }
    ensures listed { CountsListedWords }
    ensures tables { ReadsTables }
    ensures looks_up { LooksUpWords }
    ensures merges { MergesTables }
    ensures intersects { IntersectsTables }
    ensures subtracts { SubtractsTables }
    ensures filters { FiltersTables }
    ensures compares { ComparesTables }
    ensures selects { SelectsReads }
    ensures pairs { SelectsPairs }
    ensures profiles { ProfilesRecords }
    ensures refuses { Refuses }
{}

/// Values at their limits and past them, and which one of several bad ones is reported.
pub fn limits()
    ensures scaled { ScalesNumbers }
    ensures kept { KeepsLimits }
    ensures order { JudgesInOrder }
{}
