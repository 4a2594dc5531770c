ghost use Rattle.std.specs.Prelude.{length};
ghost use Rattle.std.specs.List.Sorted.{IsSearchInRange, IsBinarySearchResult};

// Where a key stands among entries in order, or where it would.
pub(crate) fn search<K: Ord, V>(entries: &[(K, V)], key: &K) -> Result<usize, usize>
    ensures bound { IsSearchInRange result (length entries.now) }
    ensures position { IsBinarySearchResult (λ entry. K.cmp entry.0 key.now) entries.now result }
{
    entries.binary_search_by(|entry| entry.0.cmp(key))
}
