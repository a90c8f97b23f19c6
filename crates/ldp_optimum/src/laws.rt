//! What follows of the best design, of trees and of the canonical forest, for any problem.
ghost use Rattle.ldp_optimum.specs.Laws.{UsableAreRanked, RankedAreUsable, RankedAreOrdered};
ghost use Rattle.ldp_optimum.specs.Laws.{BetterIsWeak, NoneBeatsItself, RankedAreDistinct};
ghost use Rattle.ldp_optimum.specs.Laws.{AdmittedAreListed, ListedAreAdmitted};
ghost use Rattle.ldp_optimum.specs.Laws.{BestIsRanked, BestIsUnbeaten, BestIsLeast, BestIsFirst};
ghost use Rattle.ldp_optimum.specs.Laws.{NoBestNoneUsable, UnbeatenIsBest, NoneUsableNoBest};
ghost use Rattle.ldp_optimum.specs.Laws.{TreeUnusable, TreeClosed, TreeSplit, TreesAreTrees};
ghost use Rattle.ldp_optimum.specs.Laws.{SplitCounts, TreesHaveNodes};
ghost use Rattle.ldp_optimum.specs.Laws.{NextTree, NextTreeCounts, AllTrees, FirstTreesCount};
ghost use Rattle.ldp_optimum.specs.Laws.{ForestIsShaped, ForestHasNodes};

/// Usable designs are ranked by their costs.
pub fn ranks()
    ensures usable { UsableAreRanked }
    ensures ranked { RankedAreUsable }
    ensures ordered { RankedAreOrdered }
    ensures weak { BetterIsWeak }
    ensures itself { NoneBeatsItself }
    ensures distinct { RankedAreDistinct }
{}

/// The list of all designs has the admissible ones.
pub fn designs()
    ensures admitted { AdmittedAreListed }
    ensures listed { ListedAreAdmitted }
{}

/// The best design is usable and admissible, and no other is better.
pub fn best_designs()
    ensures ranked { BestIsRanked }
    ensures unbeaten { BestIsUnbeaten }
    ensures least { BestIsLeast }
    ensures first { BestIsFirst }
{}

/// There is a best design exactly where one is usable, and it is the one that no other beats.
pub fn best_exists()
    ensures none { NoBestNoneUsable }
    ensures unbeaten { UnbeatenIsBest }
    ensures unusable { NoneUsableNoBest }
{}

/// The tree of a box is one node, or its split and the trees of both parts.
pub fn trees()
    ensures unusable { TreeUnusable }
    ensures closed { TreeClosed }
    ensures split { TreeSplit }
    ensures grammar { TreesAreTrees }
{}

/// How many nodes a tree has.
pub fn tree_counts()
    ensures split { SplitCounts }
    ensures few { TreesHaveNodes }
{}

/// The forest is made tree by tree.
pub fn forests()
    ensures next { NextTree }
    ensures counts { NextTreeCounts }
    ensures all { AllTrees }
    ensures fewer { FirstTreesCount }
    ensures shape { ForestIsShaped }
    ensures few { ForestHasNodes }
{}
