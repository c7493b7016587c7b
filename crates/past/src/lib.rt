// No code: collection past the layers that a summary marks is plain collection; and a window that passes its check has no summary.
#![tactic(auto)]
